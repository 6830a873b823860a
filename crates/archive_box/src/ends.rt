ghost use Rattle.std.specs.Prelude.{◌≡◌};
ghost use Rattle.faults.specs.Tables.{Checks, Clear};
ghost use Rattle.box_model.specs.Calls.{Voids, void_table};
ghost use Rattle.archive_box.specs.Boxes.{Turns, Tells};

use crate::boxes::ArchiveBox;
use crate::number::Number;
use cipher::TwoWayCipher;
use faults::{BoxCause, BoxFault};
use shelf::Shelf;

impl<C: TwoWayCipher, S: Shelf> ArchiveBox<C, S> {
    /// Ends a number in every case. Refused with 6 where it was not out in this box.
    pub fn void(&mut self, number: Number) -> Result<(), BoxFault>
        ensures shelf { self.new.shelf ≡ self.old.shelf }
        ensures voids { Turns C.Cipher.forward C.TwoWayCipher.back S.Shelf.meaning
            (λ made s. Voids made s number.value result) self.old self.new }
    {
        let value = number.spend();
        self.check_number(value)?;
        self.out.take_out(value);
        Ok(())
    }

    // Whether a number is out here.
    pub(crate) fn check_number(&self, number: u64) -> Result<(), BoxFault>
        ensures { Tells C.Cipher.forward C.TwoWayCipher.back S.Shelf.meaning
            (λ made s. let rows = void_table made s number in Checks rows (λ _. Clear rows) result)
            self.now }
    {
        if self.out.has(number) {
            Ok(())
        } else {
            Err(BoxCause::NotOut.into())
        }
    }
}
