ghost use Rattle.std.specs.Prelude.{◌≡◌, ℕ, ◌<◌, ◌≤◌, None, T};
ghost use Rattle.faults.specs.Tables.{By, Checks, Clear};
ghost use Rattle.plate.specs.Plates.{cells, mark, NoMarkAbove, fit_table, used as used_of};
ghost use Rattle.plate.specs.Plates.{Remains, LastCell, held, plate, PlateStores};
ghost use Rattle.shelf.specs.Meaning.{Lawful, open_at};

use crate::cells::{cells_in, count_used, has_gap, last_cell_of, marks_fit};
use faults::{ShelfCause, ShelfFault};
use shelf::Shelf;

/// Cells of 1,026 bytes in lent memory, at most 8,192, each written once; 1 to 4,096 places, or
/// none where the memory is unfit. Spare bytes after the cells are the lender's. The used cells
/// are counted in the making.
#[derive(Drop)]
pub struct Plate<'a> {
    memory: &'a mut [u8],
    places: u32,
    used: usize,
    ghost few: { places ≤ 4096 },
    ghost lawful: { Lawful (plate memory.now places) },
    ghost counted: { used ≡ used_of memory.now (cells memory.now) },
    ghost marks: { 0 < places → NoMarkAbove memory.now places },
    ghost order: { (i j : ℕ) → (0 < places) × (i < j) × (j < cells memory.now)
        × (mark memory.now i ≡ 0) → mark memory.now j ≡ 0 },
}

impl<'a> Plate<'a> {
    /// The check before the making: refused with 13 where the count of places is not 1 to 4,096,
    /// a mark is above it, or a used cell stands after an unused one.
    pub fn check(memory: &[u8], places: u32) -> Result<(), ShelfFault>
        ensures { let rows = fit_table memory.now places in Checks rows (λ _. Clear rows) result }
    {
        match places {
            1..=4096 if marks_fit(memory, places) && !has_gap(memory) => Ok(()),
            _ => Err(ShelfCause::Unfit.into()),
        }
    }

    /// A plate on the memory; where the check refuses it, a plate without places.
    pub fn new(memory: &'a mut [u8], places: u32) -> Plate<'a>
        ensures same { result.memory.now ≡ memory.old }
        ensures lent { result.memory.ghost_name ≡ memory.entry.ghost_name }
        ensures places { By (fit_table memory.old places)
            (λ _. result.places ≡ 0)
            (result.places ≡ places) }
    {
        let used = count_used(memory);
        let places = if Plate::check(memory, places).is_ok() {
            places
        } else {
            0
        };
        Plate {
            memory,
            places,
            used,
        }
    }

    /// The lent memory, spare bytes included.
    pub fn memory(&self) -> &[u8]
        ensures { result.now ≡ self.now.memory.now }
    {
        // The spare bytes too.
        self.memory
    }

    /// The cell, from 0, that has the record of a place; none where the place was never put. The
    /// place holds that record, or zeros.
    pub fn last_cell(&self, place: u32) -> Option<usize>
        ensures inside { place < self.now.places
            → LastCell self.now.memory.now place (cells self.now.memory.now) result }
        ensures holds { let m = plate self.now.memory.now self.now.places in
            place < self.now.places → m.bytes place ≡ held self.now.memory.now result }
        ensures outside { self.now.places ≤ place → result ≡ None }
    {
        if place >= self.places {
            return None;
        }
        last_cell_of(self.memory, place, cells_in(self.memory.len()))
    }
}

impl Shelf for Plate<'_> {
    ghost meaning = { λ s. plate s.memory.now s.places };

    ghost lawful = { λ s. s.lawful };

    ghost stores = { λ s p bytes t. PlateStores s.memory.now p bytes t.memory.now
        × (t.memory.ghost_name ≡ s.memory.ghost_name)
        × (t.places ≡ s.places) };

    fn count(&self) -> u32 {
        self.places
    }

    fn is_open(&self, place: u32) -> bool
        ensures opens { result ≡ open_at (plate self.now.memory.now self.now.places) place }
        ensures while_one_remains { let takes =
            (place < self.now.places) × Remains self.now.memory.now in
            (T result → takes) × (takes → T result) }
    {
        place < self.places && self.used < cells_in(self.memory.len())
    }

    fn get(&self, place: u32, buffer: &mut [u8]) -> Result<(), ShelfFault> {
        self.check_get(place, buffer.len())?;
        match self.last_cell(place) {
            Some(j) => buffer.copy_from_slice(&self.memory[1026 * j + 2..1026 * j + 1026]),
            None => buffer.fill(0),
        }
        Ok(())
    }

    fn put(&mut self, place: u32, bytes: &[u8]) -> Result<(), ShelfFault> {
        self.check_put(place, bytes.len())?;
        let from = 1026 * self.used;
        let cell = &mut self.memory[from..from + 1026];
        octets::paste(cell, 2, bytes);
        octets::paste(cell, 0, &(place as u16 + 1).to_be_bytes());
        self.used += 1;
        Ok(())
    }
}
