ghost use Rattle.std.specs.Prelude.{◌≡◌};
ghost use Rattle.box_model.specs.Calls.{Draws};
ghost use Rattle.archive_box.specs.Boxes.{Turns};
ghost use Rattle.archive_box.specs.Returned.{drawn_value};

use crate::boxes::ArchiveBox;
use crate::number::{Number, Once};
use cipher::TwoWayCipher;
use faults::{BoxCause, BoxFault};
use shelf::Shelf;

const LAST: u64 = 999_999_999;

impl<C: TwoWayCipher, S: Shelf> ArchiveBox<C, S> {
    /// Hands out the next number, which is then out. Refused with 7 after 999,999,999, and with 8
    /// while sixteen numbers are out.
    pub fn draw(&mut self) -> Result<Number, BoxFault>
        ensures shelf { self.new.shelf ≡ self.old.shelf }
        ensures draws { Turns C.Cipher.forward C.TwoWayCipher.back S.Shelf.meaning
            (λ made s. Draws made s (drawn_value result)) self.old self.new }
    {
        if self.next > LAST {
            return Err(BoxCause::UsedUp.into());
        }
        if self.out.is_full() {
            return Err(BoxCause::SixteenOut.into());
        }
        let value = self.next;
        self.out.add(value);
        self.next += 1;
        Ok(Number { value, once: Once })
    }
}
