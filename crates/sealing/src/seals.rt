ghost use Rattle.std.specs.Prelude.{◌≡◌};
ghost use Rattle.records.specs.Sheets.{associated as associated_of};
ghost use Rattle.sealing.specs.Sealing.{SealsSheet};

use crate::locks::PlaceLock;
use cipher::Cipher;
use faults::{ModeCause, ModeFault};
use modes::Cascade;
use octets::joined;
use records::{Record, TAG_AT, TEXT_AT, TEXT_ROOM, begin};

impl<'a, C: Cipher> PlaceLock<'a, C> {
    /// Seals a message of at most 928 bytes into a record of 1,024, under a nonce of 16 bytes and
    /// with a label of 46. Refused with 2 for a longer message; the record then stays.
    pub fn seal(
        &'a self,
        nonce: &'a [u8; 16],
        label: &[u8; 46],
        message: &[u8],
        bytes: &mut [u8; 1024],
    ) -> Result<(), ModeFault>
        ensures { SealsSheet (C.Cipher.forward self.now.cipher.now) self.now.key.now nonce.now
            self.now.place label.now message.now bytes.old result bytes.new }
    {
        let length = message.len();
        if length > TEXT_ROOM {
            return Err(ModeCause::Limit.into());
        }
        begin(bytes, nonce, label, length as u16);
        let head = Record { bytes }.head();
        let associated = associated(self.place, head);
        let mut tag = [0; 32];
        let key = self.key;
        let under = Cascade {
            cipher: self.cipher,
            key,
            nonce,
            associated: &associated,
        };
        under.seal(message, &mut bytes[TEXT_AT..TEXT_AT + length], &mut tag)?;
        bytes[TAG_AT..].copy_from_slice(&tag);
        Ok(())
    }
}

// The place and the head of a record.
pub(crate) fn associated(place: u32, head: &[u8; 48]) -> [u8; 52]
    ensures { result ≡ associated_of place head.now }
{
    joined(&place.to_be_bytes(), head)
}
