/// What an opened record tells: the number that it was sealed under, and the length of its message,
/// 0 to 928.
#[derive(Clone, Copy, PartialEq, Eq, Debug)]
pub struct Found {
    pub number: u64,
    pub length: usize,
}
