ghost use Rattle.std.specs.Prelude.{◌≡◌, ℕ, ◌≤◌, length};
ghost use Rattle.faults.specs.Tables.{Checks};
ghost use Rattle.modes.specs.Counters.{counter_block, counter_table, Counts};

use crate::bytes::{big_endian, pad, xor};
use faults::{ModeCause, ModeFault};

// A nonce of at most 20 bytes.
#[derive(Clone, Copy)]
pub(crate) struct Nonce<'a> {
    bytes: &'a [u8],
    ghost short: { length bytes.now ≤ 20 },
}

impl<'a> Nonce<'a> {
    pub(crate) fn new(bytes: &'a [u8]) -> Result<Nonce<'a>, ModeFault>
        ensures { Checks (counter_table (length bytes.now))
            (λ nonce. nonce.bytes.now ≡ bytes.now) result }
    {
        if bytes.len() > 20 {
            return Err(ModeCause::Limit.into());
        }
        Ok(Nonce { bytes })
    }

    #[tactic(auto, unfolding(crate::specs::Counters::counter_block))]
    pub(crate) fn counted(self, counter: u64) -> CounterBlock
        ensures { result.bytes ≡ counter_block self.entry.bytes.now counter }
    {
        CounterBlock {
            bytes: xor(&pad(self.bytes), &big_endian(counter)),
        }
    }
}

/// A nonce with a counter, in 32 bytes: what a chain or a block of the keystream starts from.
#[derive(Clone, Copy)]
pub struct CounterBlock {
    pub(crate) bytes: [u8; 32],
}

impl CounterBlock {
    /// Refused with 2 where the nonce has over 20 bytes.
    pub fn new(nonce: &[u8], counter: u64) -> Result<CounterBlock, ModeFault>
        ensures { Counts (λ block. block.bytes) nonce.now counter result }
    {
        Ok(Nonce::new(nonce)?.counted(counter))
    }
}
