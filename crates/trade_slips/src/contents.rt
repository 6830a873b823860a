/// The last design; the first is 1.
pub const LAST_DESIGN: u32 = 99_999_999;

/// The most copies of a licence; the fewest are 1.
pub const MOST_COPIES: u16 = 999;

/// The last day of a loan; the first is 1.
pub const LAST_DAY: u16 = 36_600;

/// The most cents of a receipt; the fewest are 0.
pub const MOST_CENTS: u64 = 1_000_000_000_000;

/// What a licence says: a design, and how many copies of it.
#[derive(Clone, Copy, PartialEq, Eq, Debug)]
pub struct Licence {
    /// 1 to `LAST_DESIGN`
    pub design: u32,
    /// 1 to `MOST_COPIES`
    pub copies: u16,
}

/// What a loan says: a design, and a day.
#[derive(Clone, Copy, PartialEq, Eq, Debug)]
pub struct Loan {
    /// 1 to `LAST_DESIGN`
    pub design: u32,
    /// 1 to `LAST_DAY`
    pub day: u16,
}

/// What a receipt says: an amount in cents.
#[derive(Clone, Copy, PartialEq, Eq, Debug)]
pub struct Receipt {
    /// 0 to `MOST_CENTS`
    pub cents: u64,
}
