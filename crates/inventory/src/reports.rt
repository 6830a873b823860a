ghost use Rattle.std.specs.Prelude.{◌≡◌, IfOk, string_bytes};
ghost use Rattle.inventory.specs.Reports.{Reports};

use crate::held::HeldRecord;
use crate::inventory::{inventory_of, open_places};
use shelf::Shelf;
use std::alloc::{AllocError, Global};

/// What a shelf holds, as text: a line on the whole, and one for each place that holds a record.
/// Refused only where memory runs out.
pub fn report<S: Shelf>(heap: Global, shelf: &S) -> Result<String, AllocError>
    ensures { IfOk result (λ text. Reports (S.Shelf.meaning shelf.now) (string_bytes text)) }
{
    let inventory = inventory_of(heap, shelf)?;
    let (places, open, held) = (shelf.count(), open_places(shelf), inventory.len());
    let mut text = format!(in heap; "{places} places, {open} open, {held} with a record\n")?;
    for HeldRecord { place, number } in &inventory {
        writeln!(text, "place {place}: number {number}")?;
    }
    Ok(text)
}
