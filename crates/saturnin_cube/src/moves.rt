ghost use Rattle.std.specs.Prelude.{◌≡◌, ◌+◌, ◌*◌, ◌<◌};
ghost use Rattle.octets.specs.Lists.{at};
ghost use Rattle.saturnin.specs.Cube.{cube};
ghost use Rattle.saturnin_cube.specs.Nibbles.{IsRow, nibbles};
ghost use Rattle.saturnin_cube.specs.Parts.{turned_from};

use crate::shape::{Cube, Row};
use std::array;

// Nibble (x, y, z) comes from (x + X y, y, z + Z y), modulo 4: at each step of y the slices turn by
// X and the sheets by Z.
#[derive(Clone, Copy)]
pub(crate) struct Turn {
    pub(crate) x: usize,
    pub(crate) z: usize,
    ghost small: { (x < 4) × (z < 4) },
}

impl Turn {
    // The row whose nibble y comes to row b.
    fn source(self, b: usize, y: usize) -> usize
        requires { (b < 16) × (y < 4) }
        ensures is { 4 * result + y ≡ turned_from self.x self.z (4 * b + y) }
        ensures small { result < 16 }
    {
        (b % 4 + self.x * y) % 4 + 4 * ((b / 4 + self.z * y) % 4)
    }
}

impl Cube {
    // Row b after a turn.
    fn turned_row(&self, by: Turn, b: usize) -> Row
        requires { b < 16 }
        ensures { IsRow result (λ y. at (nibbles self.now) (turned_from by.x by.z (4 * b + y))) }
    {
        Row {
            nibbles: array::from_fn(|y| self.row(by.source(b, y)).nibble(y)),
        }
    }

    pub(crate) fn turned(self, by: Turn) -> Cube
        ensures { nibbles result ≡ cube (λ i. at (nibbles self) (turned_from by.x by.z i)) }
    {
        Cube {
            rows: array::from_fn(|b| self.turned_row(by, b)),
        }
    }
}
