ghost use Rattle.std.specs.Prelude.{◌≡◌, ◌<◌, [], ◌∷◌, bit_xor};
ghost use Rattle.saturnin.specs.Bits.{bit as bit_of};
ghost use Rattle.octets.specs.Lists.{at};
ghost use Rattle.saturnin.specs.Layers.{add};
ghost use Rattle.saturnin.specs.Rounds.{constants as constants_of};
ghost use Rattle.saturnin_cube.specs.Nibbles.{of_row, IsRow, nibbles};

use crate::nibble::bit;
use crate::shape::{Cube, Row};
use saturnin::RoundConstants;
use std::array;
use std::ops::BitXor;

impl BitXor for Row {
    type Output = Row;

    ghost bitxor_gives = { λ p q r. IsRow r (λ y. bit_xor (of_row p y) (of_row q y)) };

    fn bitxor(self, other: Row) -> Row {
        Row {
            nibbles: array::from_fn(|y| self.nibble(y) ^ other.nibble(y)),
        }
    }
}

impl BitXor for Cube {
    type Output = Cube;

    ghost bitxor_gives = { λ s k r. nibbles r ≡ add (nibbles k) (nibbles s) };

    fn bitxor(self, key: Cube) -> Cube {
        Cube {
            rows: array::from_fn(|b| self.row(b) ^ key.row(b)),
        }
    }
}

impl Row {
    // Row b of the cube of two round constants.
    fn constants(c: RoundConstants, b: usize) -> Row
        requires { b < 16 }
        ensures { IsRow result (at (bit_of c.0 b ∷ 0 ∷ bit_of c.1 b ∷ 0 ∷ [])) }
    {
        Row {
            nibbles: [
                bit(c.0, b).into(),
                false.into(),
                bit(c.1, b).into(),
                false.into(),
            ],
        }
    }
}

impl Cube {
    pub(crate) fn constants(c: RoundConstants) -> Cube
        ensures { nibbles result ≡ constants_of c.0 c.1 }
    {
        Cube {
            rows: array::from_fn(|b| Row::constants(c, b)),
        }
    }
}
