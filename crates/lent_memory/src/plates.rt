ghost use Rattle.std.specs.Prelude.{◌≡◌, [], max, MatchResult};
ghost use Rattle.faults.specs.Tables.{By};
ghost use Rattle.plate.specs.Plates.{fit_table, plate, PlateStores};
ghost use Rattle.archive_box.specs.Boxes.{fixed, Tells};
ghost use Rattle.numbers.specs.Listed.{listed};
ghost use Rattle.lent_memory.specs.Lent.{SealsNext};

use crate::making::Making;
use crate::seals::seal_next;
use archive_box::ArchiveBox;
use cipher::TwoWayCipher;
use faults::BoxFault;
use plate::Plate;

/// A box on the plate in this memory, of so many places, or of none where the memory is unfit for
/// them. It keeps the lent memory, which is as it was.
pub fn box_on_plate<C: TwoWayCipher>(
    memory: &mut [u8],
    places: u32,
    making: Making<C>,
) -> ArchiveBox<C, Plate<'_>>
    ensures fixed { fixed result ≡ (making.cipher, making.key, making.sign) }
    ensures numbers { (result.next ≡ max making.first 1) × (listed result.out ≡ []) }
    ensures lent { result.shelf.memory.ghost_name ≡ memory.entry.ghost_name }
    ensures memory { result.shelf.memory.now ≡ memory.old }
    ensures places { By (fit_table memory.old places)
        (λ _. result.shelf.places ≡ 0)
        (result.shelf.places ≡ places) }
{
    let Making {
        cipher,
        key,
        sign,
        first,
    } = making;
    ArchiveBox::new(cipher, Plate::new(memory, places), key, sign, first)
}

/// Seals a sheet under the next number of a box on a plate: its record then stands in the lent
/// memory and in the buffer. Refused as `seal_next` is; memory and buffer then stay.
pub fn seal_in_plate<C: TwoWayCipher>(
    asked: &mut ArchiveBox<C, Plate<'_>>,
    place: u32,
    label: &[u8],
    message: &[u8],
    buffer: &mut [u8],
) -> Result<(), BoxFault>
    ensures fixed { fixed asked.new ≡ fixed asked.old }
    ensures lent { asked.new.shelf.memory.ghost_name ≡ asked.old.shelf.memory.ghost_name }
    ensures memory { MatchResult result
        (λ _. PlateStores asked.old.shelf.memory.now place buffer.new asked.new.shelf.memory.now)
        (λ _. asked.new.shelf.memory.now ≡ asked.old.shelf.memory.now) }
    ensures seals { Tells C.Cipher.forward C.TwoWayCipher.back
        (λ shelf. plate shelf.memory.now shelf.places)
        (λ made s. SealsNext made s place label.now message.now buffer.old result buffer.new)
        asked.old }
    ensures places { asked.new.shelf.places ≡ asked.old.shelf.places }
{
    seal_next(asked, place, label, message, buffer)
}
