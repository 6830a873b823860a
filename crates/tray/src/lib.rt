#![tactic(auto)]

ghost use Rattle.std.specs.Prelude.{◌≡◌};
ghost use Rattle.tray.specs.Trays.{tray, TrayStores};
ghost use Rattle.shelf.specs.Meaning.{Lawful};

use faults::ShelfFault;
use shelf::Shelf;

/// Places of 1,024 bytes one after another in lent memory, at most 4,096, all of them always
/// open. The memory may have any length; spare bytes at its end are the lender's.
#[derive(Drop)]
pub struct Tray<'a> {
    memory: &'a mut [u8],
    ghost lawful: { Lawful (tray memory.now) },
}

impl<'a> Tray<'a> {
    /// A tray on the memory, whatever it holds.
    #[tactic(auto, using(crate::proofs::Trays::tray_lawful))]
    pub fn new(memory: &'a mut [u8]) -> Tray<'a>
        ensures same { result.memory.now ≡ memory.old }
        ensures lent { result.memory.ghost_name ≡ memory.entry.ghost_name }
    {
        Tray { memory }
    }

    /// The lent memory, spare bytes included.
    pub fn memory(&self) -> &[u8]
        ensures { result.now ≡ self.now.memory.now }
    {
        // The spare bytes too.
        self.memory
    }
}

impl Shelf for Tray<'_> {
    ghost meaning = { λ t. tray t.memory.now };

    ghost lawful = { λ t. t.lawful };

    ghost stores = { λ s p bytes t. TrayStores s.memory.now p bytes t.memory.now
        × (t.memory.ghost_name ≡ s.memory.ghost_name) };

    fn count(&self) -> u32 {
        (self.memory.len() / 1024).min(4096) as u32
    }

    fn is_open(&self, place: u32) -> bool {
        place < self.count()
    }

    fn get(&self, place: u32, buffer: &mut [u8]) -> Result<(), ShelfFault> {
        self.check_get(place, buffer.len())?;
        let from = 1024 * place as usize;
        buffer.copy_from_slice(&self.memory[from..from + 1024]);
        Ok(())
    }

    fn put(&mut self, place: u32, bytes: &[u8]) -> Result<(), ShelfFault> {
        self.check_put(place, bytes.len())?;
        let from = 1024 * place as usize;
        self.memory[from..from + 1024].copy_from_slice(bytes);
        Ok(())
    }
}
