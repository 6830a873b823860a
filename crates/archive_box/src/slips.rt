ghost use Rattle.std.specs.Prelude.{◌≡◌, IfErr};
ghost use Rattle.std.specs.Option.{option_copied};
ghost use Rattle.records.specs.Sheets.{nonce_of};
ghost use Rattle.box_model.specs.Calls.{Slips, Unslips, ReadsSlip};
ghost use Rattle.box_model.specs.Kinds.{ReadsItsKind};
ghost use Rattle.archive_box.specs.Boxes.{Turns, Tells};
ghost use Rattle.archive_box.specs.Returned.{fault_of};

use crate::boxes::ArchiveBox;
use crate::number::{Number, Refusal};
use cipher::TwoWayCipher;
use faults::{BoxCause, BoxFault};
use octets::joined;
use sealing::SlipLock;
use shelf::Shelf;
use slip_kinds::SlipKind;

impl<C: TwoWayCipher, S: Shelf> ArchiveBox<C, S> {
    /// Makes a slip under the number in a buffer of 48 bytes, and spends the number. Refused with 1
    /// for a buffer of another length, 2 for a message above 15 bytes, and 6 for a number that is
    /// not out in this box; the number is then handed back, and the buffer stays.
    pub fn slip(&mut self, number: Number, message: &[u8], bytes: &mut [u8]) -> Result<(), Refusal>
        ensures back { IfErr result (λ r. r.number ≡ number) }
        ensures shelf { self.new.shelf ≡ self.old.shelf }
        ensures slips { Turns C.Cipher.forward C.TwoWayCipher.back S.Shelf.meaning
            (λ made s. Slips made s number.value (Some message.now) bytes.old (fault_of result)
            bytes.new)
            self.old self.new }
    {
        self.spend_on_slip(number, Some(message), bytes)
    }

    /// The maker of slips of every kind: makes the slip of a content under the number in a buffer
    /// of 48 bytes, and spends the number. Refused with 1 for a buffer of another length, 15 for a
    /// content outside its range, and 6 for a number that is not out in this box; the number is
    /// then handed back, and the buffer stays.
    pub fn make_slip<K: SlipKind>(
        &mut self,
        number: Number,
        content: &K::Content,
        bytes: &mut [u8],
    ) -> Result<(), Refusal>
        ensures back { IfErr result (λ r. r.number ≡ number) }
        ensures shelf { self.new.shelf ≡ self.old.shelf }
        ensures slips { Turns C.Cipher.forward C.TwoWayCipher.back S.Shelf.meaning
            (λ made s. Slips made s number.value (K.writes content.now) bytes.old (fault_of result)
            bytes.new)
            self.old self.new }
    {
        match K::write(content) {
            Some(message) => self.spend_on_slip(number, Some(&message), bytes),
            None => self.spend_on_slip(number, None, bytes),
        }
    }

    // A slip of a message, or of a content that has none.
    fn spend_on_slip(
        &mut self,
        number: Number,
        message: Option<&[u8]>,
        bytes: &mut [u8],
    ) -> Result<(), Refusal>
        ensures back { IfErr result (λ r. r.number ≡ number) }
        ensures shelf { self.new.shelf ≡ self.old.shelf }
        ensures slips { Turns C.Cipher.forward C.TwoWayCipher.back S.Shelf.meaning
            (λ made s. Slips made s number.value (option_copied message.entry) bytes.old
            (fault_of result) bytes.new)
            self.old self.new }
    {
        match self.slipped(number.value, message, bytes) {
            Ok(()) => {
                number.spend();
                Ok(())
            }
            Err(fault) => Err(Refusal { fault, number }),
        }
    }

    // The same, with the number as a plain one.
    fn slipped(
        &mut self,
        number: u64,
        message: Option<&[u8]>,
        bytes: &mut [u8],
    ) -> Result<(), BoxFault>
        ensures shelf { self.new.shelf ≡ self.old.shelf }
        ensures slips { Turns C.Cipher.forward C.TwoWayCipher.back S.Shelf.meaning
            (λ made s. Slips made s number (option_copied message.entry) bytes.old result bytes.new)
            self.old self.new }
    {
        let bytes = bytes.as_mut_array().ok_or(BoxCause::Length)?;
        if let Some(message) = message
            && message.len() > 15
        {
            return Err(BoxCause::Limit.into());
        }
        let message = message.ok_or(BoxCause::Content)?;
        self.check_number(number)?;
        let nonce = self.nonce(number);
        let lock = SlipLock {
            cipher: &self.cipher,
            key: &self.key,
        };
        lock.seal(&nonce, message, bytes)?;
        self.out.take_out(number);
        Ok(())
    }

    /// Opens a slip of 48 bytes into a buffer of 15, which then holds its message and zeros; the
    /// answer is the length of the message. Refused with 1 for another length of either, and with
    /// 12 where the slip was not made under this key; the buffer is then zero.
    pub fn unslip(&self, bytes: &[u8], message: &mut [u8]) -> Result<usize, BoxFault>
        ensures { Tells C.Cipher.forward C.TwoWayCipher.back S.Shelf.meaning
            (λ made s. Unslips made s bytes.now message.old result message.new) self.now }
    {
        let bytes = bytes.as_array().ok_or(BoxCause::Length)?;
        let message = message.as_mut_array().ok_or(BoxCause::Length)?;
        let lock = SlipLock {
            cipher: &self.cipher,
            key: &self.key,
        };
        Ok(lock.open(bytes, message)?)
    }

    /// The reader of slips of every kind: opens a slip of 48 bytes into a buffer of 15, as `unslip`
    /// does, and gives the content. Refused with 1 for another length of either; with 12 where the
    /// slip does not open, and 16 where the kind cannot have written its message: the buffer is then
    /// zero.
    pub fn read_slip<K: SlipKind>(
        &self,
        bytes: &[u8],
        message: &mut [u8],
    ) -> Result<K::Content, BoxFault>
        ensures reads { Tells C.Cipher.forward C.TwoWayCipher.back S.Shelf.meaning
            (λ made s. ReadsSlip made s K.writes bytes.now message.old result message.new)
            self.now }
        ensures kind { Tells C.Cipher.forward C.TwoWayCipher.back S.Shelf.meaning
            (λ made _. ReadsItsKind made K.writes bytes.now message.old result) self.now }
    {
        let length = self.unslip(bytes, message)?;
        match K::read(&message[..length]) {
            Some(content) => Ok(content),
            None => {
                message.fill(0);
                Err(BoxCause::OtherKind.into())
            }
        }
    }

    // The nonce of a number: the sign of the box, and the number.
    pub(crate) fn nonce(&self, number: u64) -> [u8; 16]
        ensures { result ≡ nonce_of self.now.sign number }
    {
        joined(&self.sign, &number.to_be_bytes())
    }
}
