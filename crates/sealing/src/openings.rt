ghost use Rattle.std.specs.Prelude.{◌≡◌, ℕ, length};
ghost use Rattle.faults.specs.Tables.{Checks, Clear, Not};
ghost use Rattle.records.specs.Records.{empty, length_in, text_in, WellFormed};
ghost use Rattle.records.specs.Sheets.{message_in as message_of};
ghost use Rattle.sealing.specs.Sealing.{form_table, open_sheet_table, OpensSheet};

use crate::found::Found;
use crate::locks::PlaceLock;
use crate::seals::associated;
use arrayvec::ArrayVec;
use cipher::Cipher;
use faults::{BoxCause, BoxFault};
use modes::Cascade;
use records::{Record, TEXT_AT};

impl<'a, C: Cipher> PlaceLock<'a, C> {
    /// Opens the record of the place in its buffer of 1,024 bytes: the message then stands in place
    /// of its ciphertext. Refused with 9 for an empty record, 10 for a length above 928 or a
    /// filling that is not zero, and 11 for another tag; the buffer is then zero.
    pub fn open(&self, bytes: &mut [u8; 1024]) -> Result<Found, BoxFault>
        ensures { OpensSheet (C.Cipher.forward self.now.cipher.now) self.now.key.now self.now.place
            bytes.old result bytes.new }
    {
        let number = Record { bytes }.number();
        match self.message_in(bytes) {
            Ok(message) => {
                octets::paste(bytes, TEXT_AT, &message);
                Ok(Found {
                    number,
                    length: message.len(),
                })
            }
            Err(fault) => {
                bytes.fill(0);
                Err(fault)
            }
        }
    }

    // The message of a record.
    fn message_in(&'a self, bytes: &'a [u8; 1024]) -> Result<ArrayVec<u8, 928>, BoxFault>
        ensures { let f = C.Cipher.forward self.now.cipher.now in
            let rows = open_sheet_table f self.now.key.now self.now.place bytes.now in
            Checks rows
            (λ message. Clear rows
            × (length message.items ≡ length_in bytes.now)
            × (message.items ≡ message_of f self.now.key.now bytes.now)) result }
    {
        let record = Record { bytes };
        let text = check_form(bytes)?;
        let associated = associated(self.place, record.head());
        let key = self.key;
        let under = Cascade {
            cipher: self.cipher,
            key,
            nonce: record.nonce(),
            associated: &associated,
        };
        let mut message = ArrayVec::from([0; 928]);
        message.truncate(text.len());
        under.open(text, record.tag(), &mut message)?;
        Ok(message)
    }
}

// The text of a record that is well-formed, and not empty.
fn check_form(bytes: &[u8; 1024]) -> Result<&[u8], BoxFault>
    ensures { Checks (form_table bytes.now)
        (λ text. (text.now ≡ text_in bytes.now)
        × Not (bytes.now ≡ empty)
        × WellFormed bytes.now) result }
{
    let record = Record { bytes };
    if record.is_empty() {
        return Err(BoxCause::Empty.into());
    }
    match (record.text(), record.filling()) {
        (Some(text), Some(filling)) if octets::is_zero(filling) => Ok(text),
        _ => Err(BoxCause::Filling.into()),
    }
}
