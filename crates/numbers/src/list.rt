ghost use Rattle.std.specs.Prelude.{◌≡◌, ◌<◌, ◌≤◌, [], ◌∷◌, ◌++◌, length, MatchBool, nat_le};
ghost use Rattle.numbers.specs.Counting.{count, without};
ghost use Rattle.numbers.specs.Listed.{listed};

use arrayvec::ArrayVec;

/// The numbers out of a box, oldest first: sixteen at the most.
#[derive(Drop)]
pub struct NumbersOut {
    items: ArrayVec<u64, 16>,
}

impl NumbersOut {
    /// No number is out.
    pub fn new() -> NumbersOut
        ensures { listed result ≡ [] }
    {
        NumbersOut {
            items: ArrayVec::new(),
        }
    }

    /// Whether sixteen numbers are out.
    pub fn is_full(&self) -> bool
        ensures { result ≡ nat_le 16 (length (listed self.now)) }
    {
        self.items.is_full()
    }

    /// Whether a number is out.
    pub fn has(&self, number: u64) -> bool
        ensures { MatchBool result
            (0 < count number (listed self.now))
            (count number (listed self.now) ≡ 0) }
    {
        self.items.contains(&number)
    }

    /// Adds a number at the end; where sixteen are out, all stays as it was.
    pub fn add(&mut self, number: u64)
        ensures room { length (listed self.old) < 16
            → listed self.new ≡ listed self.old ++ (number ∷ []) }
        ensures full { 16 ≤ length (listed self.old) → self.new ≡ self.old }
    {
        if !self.items.is_full() {
            self.items.push(number);
        }
    }

    /// Takes a number out, the oldest of that number; where it is not listed, all stays as it was.
    pub fn take_out(&mut self, number: u64)
        ensures { listed self.new ≡ without number (listed self.old) }
    {
        if let Some(i) = self.items.iter().position(|n| *n == number) {
            self.items.remove(i);
        }
    }
}
