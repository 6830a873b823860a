ghost use Rattle.std.specs.Prelude.{◌≡◌};
ghost use Rattle.records.specs.Records.{slip_nonce, slip_block};

use crate::layout::{BLOCK_AT, part};

/// The 48 bytes of a slip, by its parts.
#[derive(Clone, Copy)]
pub struct Slip<'a> {
    pub bytes: &'a [u8; 48],
}

impl<'a> Slip<'a> {
    /// The nonce that the slip was made under: 16 bytes.
    pub fn nonce(&self) -> &'a [u8; 16]
        ensures { result.now ≡ slip_nonce self.now.bytes.now }
    {
        part(self.bytes, 0)
    }

    /// The block of Short: 32 bytes.
    pub fn block(&self) -> &'a [u8; 32]
        ensures { result.now ≡ slip_block self.now.bytes.now }
    {
        part(self.bytes, BLOCK_AT)
    }
}
