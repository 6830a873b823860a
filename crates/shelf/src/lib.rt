#![tactic(auto)]

ghost use Rattle.std.specs.Prelude.{◌≡◌, ℕ, List, length, MatchResult};
ghost use Rattle.faults.specs.Tables.{Checks, Clear};
ghost use Rattle.shelf.specs.Meaning.{Meaning, Lawful, open_at, Gets, Puts, get_table, put_table};

use faults::{ShelfCause, ShelfFault};

/// A shelf: numbered places of 1,024 bytes, at most 65,536, each open or shut to a put. Questions
/// change nothing.
pub trait Shelf {
    ghost meaning: { Self → Meaning };

    // What a done put does to a shelf of this kind, entire: also to what its meaning does not
    // show, as spare bytes of a memory.
    ghost stores: { Self → (p : ℕ) (bytes : List ℕ) → Self → Type 0 };

    /// How many places there are.
    fn count(&self) -> u32
        ensures { result ≡ (meaning self.now).count };

    /// Whether a place is open; one that the shelf does not have is not.
    fn is_open(&self, place: u32) -> bool
        ensures { result ≡ open_at (meaning self.now) place };

    /// The bytes of a place into a buffer of 1,024. Refused with 1 for a buffer of another
    /// length, and with 4 for an outside place; the buffer then stays.
    fn get(&self, place: u32, buffer: &mut [u8]) -> Result<(), ShelfFault>
        ensures { Gets (meaning self.now) place buffer.old result buffer.new };

    /// Puts a record of 1,024 bytes at a place. Refused with 1 for another length, 4 outside and
    /// 5 where the place is shut, each with the place; a refused put leaves the shelf as it was,
    /// in every respect.
    fn put(&mut self, place: u32, bytes: &[u8]) -> Result<(), ShelfFault>
        ensures puts { Puts (meaning self.old) place bytes.now result (meaning self.new) }
        ensures entire { MatchResult result
            (λ _. stores self.old place bytes.now self.new)
            (λ _. self.new ≡ self.old) };

    /// Whether `get` with a buffer of this size would be done.
    fn check_get(&self, place: u32, room: usize) -> Result<(), ShelfFault>
        ensures { let rows = get_table (meaning self.now) place room in
            Checks rows (λ _. Clear rows) result }
    {
        if room != 1024 {
            return Err(ShelfCause::Length.into());
        }
        if place >= self.count() {
            return Err(ShelfCause::Outside.into());
        }
        Ok(())
    }

    /// Whether a `put` of so many bytes would be done.
    fn check_put(&self, place: u32, size: usize) -> Result<(), ShelfFault>
        ensures { let rows = put_table (meaning self.now) place size in
            Checks rows (λ _. Clear rows) result }
    {
        let cause = if size != 1024 {
            ShelfCause::Length
        } else if place >= self.count() {
            ShelfCause::Outside
        } else if !self.is_open(place) {
            ShelfCause::Shut
        } else {
            return Ok(());
        };
        Err(ShelfFault {
            cause,
            place: Some(place),
        })
    }

    ghost lawful: { (s : Self) → Lawful (meaning s) };
}
