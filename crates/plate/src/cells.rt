ghost use Rattle.std.specs.Prelude.{◌≡◌, ℕ, ◌<◌, ◌≤◌, MatchBool};
ghost use Rattle.plate.specs.Plates.{plate_cells, cells, mark as mark_of, NoMarkAbove, used};
ghost use Rattle.plate.specs.Plates.{last_cell};
ghost use Rattle.plate.specs.Neighbours.{GapAfter, NoGapAfterAny};

// How many cells a memory of this size has.
pub(crate) fn cells_in(size: usize) -> usize
    ensures { result ≡ plate_cells size }
{
    (size / 1026).min(8192)
}

// The mark of a cell, as it stands in the memory: the place of its record plus 1, or 0 where the
// cell is unused.
fn mark(memory: &[u8], j: usize) -> u32
    requires { j < cells memory.now }
    ensures { result ≡ mark_of memory.now j }
{
    u16::from_be_bytes([memory[1026 * j], memory[1026 * j + 1]]) as u32
}

pub(crate) fn count_used(memory: &[u8]) -> usize
    ensures { result ≡ used memory.now (cells memory.now) }
{
    (0..cells_in(memory.len()))
        .filter(|j| mark(memory, *j) != 0)
        .count()
}

// Whether no mark is above the count of places.
pub(crate) fn marks_fit(memory: &[u8], places: u32) -> bool
    ensures { MatchBool result
        (NoMarkAbove memory.now places)
        ((j : ℕ) × (j < cells memory.now) × (places < mark_of memory.now j)) }
{
    (0..cells_in(memory.len())).all(|j| mark(memory, j) <= places)
}

// Whether a used cell comes straight after an unused one.
pub(crate) fn has_gap(memory: &[u8]) -> bool
    ensures { MatchBool result ((j : ℕ) × GapAfter memory.now j) (NoGapAfterAny memory.now) }
{
    (1..cells_in(memory.len())).any(|j| mark(memory, j - 1) == 0 && mark(memory, j) != 0)
}

// The last of the first n cells that has the mark of a place. The search calls itself on the cells
// before.
pub(crate) fn last_cell_of(memory: &[u8], place: u32, n: usize) -> Option<usize>
    requires { (n ≤ cells memory.now) × (place < 4096) }
    ensures { result ≡ last_cell memory.now place n }
{
    let last = n.checked_sub(1)?;
    if mark(memory, last) == place + 1 {
        Some(last)
    } else {
        last_cell_of(memory, place, last)
    }
}
