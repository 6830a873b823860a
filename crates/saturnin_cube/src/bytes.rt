ghost use Rattle.std.specs.Prelude.{◌≡◌, ◌<◌, length};
ghost use Rattle.octets.specs.Lists.{table};
ghost use Rattle.saturnin.specs.Cube.{register, cube_register};
ghost use Rattle.saturnin_cube.specs.Nibbles.{IsRow, nibbles};
ghost use Rattle.saturnin_cube.specs.Parts.{nibble_in};

use crate::nibble::{Nibble, bit};
use crate::shape::{Cube, Row};
use std::array;

// The sixteen registers of a block: bit k of nibble y of row b is bit b of register 4y + k.
#[derive(Clone, Copy)]
pub(crate) struct Registers {
    all: [u16; 16],
    ghost sixteen: { length all ≡ 16 },
}

impl Registers {
    pub(crate) fn of(bytes: &[u8; 32]) -> Registers
        ensures { result.all ≡ table 16 (register bytes.now) }
    {
        Registers {
            all: array::from_fn(|g| u16::from_le_bytes([bytes[2 * g], bytes[2 * g + 1]])),
        }
    }

    // Nibble y of row b.
    fn nibble(&self, b: usize, y: usize) -> Nibble
        requires { (b < 16) × (y < 4) }
        ensures { result.value ≡ nibble_in self.now.all b y }
    {
        Nibble::of_bits(
            bit(self.all[4 * y], b),
            bit(self.all[4 * y + 1], b),
            bit(self.all[4 * y + 2], b),
            bit(self.all[4 * y + 3], b),
        )
    }

    pub(crate) fn row(&self, b: usize) -> Row
        requires { b < 16 }
        ensures { IsRow result (nibble_in self.now.all b) }
    {
        Row {
            nibbles: array::from_fn(|y| self.nibble(b, y)),
        }
    }
}

impl Cube {
    // Register g, back from the cube.
    pub(crate) fn register(&self, g: usize) -> u16
        requires { g < 16 }
        ensures { result ≡ cube_register (nibbles self.now) g }
    {
        let mut x = 0u16;
        for (b, row) in self.rows.iter().enumerate() {
            x += (row.nibble(g / 4).bit(g % 4) as u16) << b;
        }
        x
    }
}
