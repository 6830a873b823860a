ghost use Rattle.std.specs.Prelude.{◌≡◌, IfOk};
ghost use Rattle.inventory.specs.Inventory.{open_places as open_of, Inventory};

use crate::held::HeldRecord;
use records::Record;
use shelf::Shelf;
use std::alloc::{AllocError, Global};

/// How many places of a shelf are open.
pub fn open_places<S: Shelf>(shelf: &S) -> u32
    ensures { let shelf = S.Shelf.meaning shelf.now in result ≡ open_of shelf shelf.count }
{
    (0..shelf.count())
        .filter(|place| shelf.is_open(*place))
        .count() as u32
}

/// The places of a shelf that hold a record, in order. Refused only where memory runs out.
pub fn inventory_of<S: Shelf>(heap: Global, shelf: &S) -> Result<Vec<HeldRecord>, AllocError>
    ensures { let shelf = S.Shelf.meaning shelf.now in
        IfOk result (λ held. Inventory shelf shelf.count held.items) }
{
    let mut held = Vec::new(heap);
    for place in 0..shelf.count() {
        let mut bytes = [0; 1024];
        shelf.get(place, &mut bytes).unwrap();
        let record = Record { bytes: &bytes };
        if !record.is_empty() {
            let number = record.number();
            held.push(HeldRecord { place, number })?;
        }
    }
    Ok(held)
}
