ghost use Rattle.sealing.specs.Slips.{SealsSlip, OpensSlip};

use crate::locks::SlipLock;
use cipher::TwoWayCipher;
use faults::ModeFault;
use modes::{open_short, seal_short};
use records::{BLOCK_AT, Slip};

impl<C: TwoWayCipher> SlipLock<'_, C> {
    /// Seals a message of at most 15 bytes into a slip of 48, under a nonce of 16 bytes. Refused
    /// with 2 for a longer message; the slip then stays.
    pub fn seal(
        &self,
        nonce: &[u8; 16],
        message: &[u8],
        bytes: &mut [u8; 48],
    ) -> Result<(), ModeFault>
        ensures { SealsSlip (C.Cipher.forward self.now.cipher.now) self.now.key.now nonce.now
            message.now bytes.old result bytes.new }
    {
        let key = self.key;
        seal_short(self.cipher, key, nonce, message, &mut bytes[BLOCK_AT..])?;
        bytes[..BLOCK_AT].copy_from_slice(nonce);
        Ok(())
    }

    /// Opens a slip of 48 bytes into a buffer of 15: the message, then zeros; its length is the
    /// answer. Refused with 12 for another nonce in the block, or no padding; the buffer is then
    /// zero.
    pub fn open(&self, bytes: &[u8; 48], message: &mut [u8; 15]) -> Result<usize, ModeFault>
        ensures { OpensSlip (C.TwoWayCipher.back self.now.cipher.now) self.now.key.now bytes.now
            result message.new }
    {
        let slip = Slip { bytes };
        let (key, nonce, block) = (self.key, slip.nonce(), slip.block());
        open_short(self.cipher, key, nonce, block, message)
    }
}
