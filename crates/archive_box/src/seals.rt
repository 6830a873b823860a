ghost use Rattle.std.specs.Prelude.{◌≡◌, IfErr, MatchResult};
ghost use Rattle.faults.specs.Tables.{Checks, Clear};
ghost use Rattle.box_model.specs.Calls.{seal_table, Seals};
ghost use Rattle.archive_box.specs.Boxes.{Turns, Tells};
ghost use Rattle.archive_box.specs.Returned.{fault_of, with_place};

use crate::boxes::ArchiveBox;
use crate::number::{Number, Refusal};
use cipher::TwoWayCipher;
use faults::{BoxCause, BoxFault};
use sealing::PlaceLock;
use shelf::Shelf;

impl<C: TwoWayCipher, S: Shelf> ArchiveBox<C, S> {
    /// Seals a sheet under the number, puts it at the place, leaves its record in the buffer, and
    /// spends the number. The label has 46 bytes, the message at most 928, and the buffer 1,024.
    /// Refused with 1 for another length of label or buffer, 2 for a longer message, 4 outside and
    /// 5 where the place is shut, and 6 for a number that is not out in this box, each with the
    /// place; the number is then handed back, and box, shelf and buffer stay.
    pub fn seal(
        &mut self,
        number: Number,
        place: u32,
        label: &[u8],
        message: &[u8],
        bytes: &mut [u8],
    ) -> Result<(), Refusal>
        ensures back { IfErr result (λ r. r.number ≡ number) }
        ensures shelf { MatchResult result
            (λ _. S.Shelf.stores self.old.shelf place bytes.new self.new.shelf)
            (λ _. self.new ≡ self.old) }
        ensures seals { Turns C.Cipher.forward C.TwoWayCipher.back S.Shelf.meaning
            (λ made s. Seals made s number.value place label.now message.now bytes.old
            (fault_of result) bytes.new)
            self.old self.new }
    {
        match self.sealed(number.value, place, label, message, bytes) {
            Ok(()) => {
                number.spend();
                Ok(())
            }
            Err(fault) => Err(Refusal {
                fault: fault.placed(place),
                number,
            }),
        }
    }

    // The same, with the number as a plain one, and without the place in a fault of the box's own.
    fn sealed(
        &mut self,
        number: u64,
        place: u32,
        label: &[u8],
        message: &[u8],
        bytes: &mut [u8],
    ) -> Result<(), BoxFault>
        ensures shelf { MatchResult result
            (λ _. S.Shelf.stores self.old.shelf place bytes.new self.new.shelf)
            (λ _. self.new ≡ self.old) }
        ensures seals { Turns C.Cipher.forward C.TwoWayCipher.back S.Shelf.meaning
            (λ made s. Seals made s number place label.now message.now bytes.old
            (with_place place result) bytes.new)
            self.old self.new }
    {
        self.check_seal(number, place, label, message, bytes)?;
        let label = label.as_array().unwrap();
        let record = bytes.as_mut_array().unwrap();
        let nonce = self.nonce(number);
        let lock = PlaceLock {
            cipher: &self.cipher,
            key: &self.key,
            place,
        };
        lock.seal(&nonce, label, message, record)?;
        self.shelf.put(place, record)?;
        self.out.take_out(number);
        Ok(())
    }

    // Whether the sealing would be done.
    fn check_seal(
        &self,
        number: u64,
        place: u32,
        label: &[u8],
        message: &[u8],
        bytes: &[u8],
    ) -> Result<(), BoxFault>
        ensures { Tells C.Cipher.forward C.TwoWayCipher.back S.Shelf.meaning
            (λ made s.
            let rows = seal_table made s number place label.now message.now bytes.now in
            Checks rows (λ _. Clear rows) (with_place place result))
            self.now }
    {
        if label.len() != 46 || bytes.len() != 1024 {
            return Err(BoxCause::Length.into());
        }
        if message.len() > 928 {
            return Err(BoxCause::Limit.into());
        }
        self.shelf.check_put(place, 1024)?;
        self.check_number(number)
    }
}
