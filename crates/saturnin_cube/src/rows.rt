ghost use Rattle.std.specs.Prelude.{◌≡◌, ◌+◌, ◌*◌, ◌<◌};
ghost use Rattle.octets.specs.Lists.{at};
ghost use Rattle.saturnin_cube.specs.Nibbles.{of_row, IsRow, nibbles};

use crate::nibble::Nibble;
use crate::shape::{Cube, Row};

impl Row {
    pub(crate) fn nibble(self, y: usize) -> Nibble
        requires { y < 4 }
        ensures { result.value ≡ of_row self y }
    {
        self.nibbles[y]
    }
}

impl Cube {
    pub(crate) fn row(&self, b: usize) -> Row
        requires { b < 16 }
        ensures { IsRow result (λ y. at (nibbles self.now) (4 * b + y)) }
    {
        self.rows[b]
    }
}
