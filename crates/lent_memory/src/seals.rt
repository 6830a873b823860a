ghost use Rattle.std.specs.Prelude.{◌≡◌, MatchResult};
ghost use Rattle.archive_box.specs.Boxes.{fixed, Tells};
ghost use Rattle.lent_memory.specs.Lent.{SealsNext};

use archive_box::{ArchiveBox, Refusal};
use cipher::TwoWayCipher;
use faults::BoxFault;
use shelf::Shelf;

/// Draws the next number of the box and seals a sheet under it; a number that is left over is void.
/// The label has 46 bytes, the message at most 928, and the buffer 1,024. Refused as the draw is,
/// with 7 and 8, and then as the seal is, with 1, 2, 4 and 5; shelf and buffer then stay.
pub fn seal_next<C: TwoWayCipher, S: Shelf>(
    asked: &mut ArchiveBox<C, S>,
    place: u32,
    label: &[u8],
    message: &[u8],
    buffer: &mut [u8],
) -> Result<(), BoxFault>
    ensures fixed { fixed asked.new ≡ fixed asked.old }
    ensures shelf { MatchResult result
        (λ _. S.Shelf.stores asked.old.shelf place buffer.new asked.new.shelf)
        (λ _. asked.new.shelf ≡ asked.old.shelf) }
    ensures seals { Tells C.Cipher.forward C.TwoWayCipher.back S.Shelf.meaning
        (λ made s. SealsNext made s place label.now message.now buffer.old result buffer.new)
        asked.old }
{
    let number = asked.draw()?;
    match asked.seal(number, place, label, message, buffer) {
        Ok(()) => Ok(()),
        Err(Refusal { fault, number }) => {
            asked.void(number)?;
            Err(fault)
        }
    }
}
