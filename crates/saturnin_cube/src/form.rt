ghost use Rattle.saturnin_cube.specs.Nibbles.{nibbles};

use crate::bytes::Registers;
use crate::moves::Turn;
use crate::s_boxes::{SIGMA0, SIGMA0_BACK, SIGMA1, SIGMA1_BACK};
use crate::shape::{Cube, Row};
use saturnin::{Form, RoundConstants};
use std::array;

impl Form for Cube {
    ghost cube = { nibbles };

    fn load(block: &[u8; 32]) -> Cube {
        let registers = Registers::of(block);
        Cube {
            rows: array::from_fn(|b| registers.row(b)),
        }
    }

    fn store(self) -> [u8; 32] {
        let registers: [u16; 16] = array::from_fn(|g| self.register(g));
        array::from_fn(|m| registers[m / 2].to_le_bytes()[m % 2])
    }

    fn s_boxes(self) -> Cube {
        Cube {
            rows: self.rows.map(|row| row.through(SIGMA0, SIGMA1)),
        }
    }

    fn s_boxes_back(self) -> Cube {
        Cube {
            rows: self.rows.map(|row| row.through(SIGMA0_BACK, SIGMA1_BACK)),
        }
    }

    fn columns(self) -> Cube {
        Cube {
            rows: self.rows.map(Row::mixed),
        }
    }

    fn columns_back(self) -> Cube {
        Cube {
            rows: self.rows.map(Row::mixed_back),
        }
    }

    fn shift_slices(self) -> Cube {
        self.turned(Turn { x: 3, z: 0 })
    }

    fn shift_slices_back(self) -> Cube {
        self.turned(Turn { x: 1, z: 0 })
    }

    fn shift_sheets(self) -> Cube {
        self.turned(Turn { x: 0, z: 3 })
    }

    fn shift_sheets_back(self) -> Cube {
        self.turned(Turn { x: 0, z: 1 })
    }

    // Every row comes from five rows on.
    fn rotated(self) -> Cube {
        Cube {
            rows: array::from_fn(|b| self.row((b + 5) % 16)),
        }
    }

    fn plus_constants(self, c: RoundConstants) -> Cube {
        self ^ Cube::constants(c)
    }

    ghost can_add = { λ s key. tt };

    ghost adds = { λ s key sum h. h };
}
