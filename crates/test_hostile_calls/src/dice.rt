ghost use Rattle.std.specs.Prelude.{◌<◌, ◌≤◌};

use rand_core::{Rng, SeedableRng};
use rand_xoshiro::SplitMix64;
use std::alloc::{AllocError, Global};

/// Pseudo-random numbers from a fixed start.
#[derive(Drop)]
pub(crate) struct Dice {
    words: SplitMix64,
}

impl Dice {
    pub(crate) fn new(seed: u64) -> Dice {
        Dice {
            words: SplitMix64::seed_from_u64(seed),
        }
    }

    pub(crate) fn next(&mut self) -> u64 {
        self.words.next_u64()
    }

    // A number below n; 0 where there is none.
    pub(crate) fn below(&mut self, n: usize) -> usize
        ensures at_most { result ≤ n }
        ensures below { 0 < n → result < n }
    {
        let rolled = self.next() >> 33;
        (rolled as usize).checked_rem(n).unwrap_or(0)
    }

    // Whether one of so many is thrown.
    pub(crate) fn one_in(&mut self, n: usize) -> bool {
        self.below(n) == 0
    }

    pub(crate) fn byte(&mut self) -> u8 {
        (self.next() >> 56) as u8
    }

    pub(crate) fn bytes(&mut self, heap: Global, count: usize) -> Result<Vec<u8>, AllocError> {
        let mut bytes = vec![in heap; 0; count]?;
        for b in bytes.iter_mut() {
            *b = self.byte();
        }
        Ok(bytes)
    }

    // Mostly the right length; else one beside it, none, or any up to twice as much.
    pub(crate) fn length(&mut self, right: usize) -> usize {
        match self.below(80) {
            0 => right.saturating_sub(1),
            1 => right.saturating_add(1),
            2 => 0,
            3 => self.below(right.saturating_mul(2)),
            _ => right,
        }
    }

    // A length up to a limit or a little over: mostly short, or beside the limit or a block's end.
    pub(crate) fn length_up_to(&mut self, limit: usize) -> usize {
        match self.below(24) {
            0 => limit,
            1 => limit.saturating_add(1),
            2 => self.below(limit.saturating_add(40)),
            3 | 4 => [0, 1, 31, 32, 33, 64, 14, 16][self.below(8) % 8],
            _ => self.below(limit.min(50)),
        }
    }
}
