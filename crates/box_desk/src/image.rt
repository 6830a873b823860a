ghost use Rattle.std.specs.Prelude.{◌≡◌, ℕ, List};

use plate::Plate;
use shelf::Shelf;
use tray::Tray;

/// A shelf in one piece of memory, of which an image can be saved.
pub trait Image: Shelf {
    ghost bytes: { Self → List ℕ };

    /// The bytes of the memory, spare ones included.
    fn image(&self) -> &[u8]
        ensures { result.now ≡ bytes self.now };
}

impl Image for Tray<'_> {
    ghost bytes = { λ t. t.memory.now };

    fn image(&self) -> &[u8] {
        self.memory()
    }
}

impl Image for Plate<'_> {
    ghost bytes = { λ s. s.memory.now };

    fn image(&self) -> &[u8] {
        self.memory()
    }
}
