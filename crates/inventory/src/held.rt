/// A place that holds a record, and the number in it.
#[derive(Clone, Copy, PartialEq, Eq, Debug)]
pub struct HeldRecord {
    pub place: u32,
    pub number: u64,
}
