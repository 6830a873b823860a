ghost use Rattle.std.specs.Prelude.{◌≡◌, ℕ, ◌%◌, ◌<◌, cond, ◌==◌, length, slice_index};
ghost use Rattle.octets.specs.Lists.{at};
ghost use Rattle.saturnin_cube.specs.Nibbles.{of_row, IsRow};

use crate::nibble::Nibble;
use crate::shape::Row;

// An S-box, by its table.
#[derive(Clone, Copy)]
pub(crate) struct SBox {
    table: [u8; 16],
    ghost whole: { length table ≡ 16 },
    ghost small: { (v : ℕ) → slice_index table v < 16 },
}

pub(crate) const SIGMA0: SBox = SBox {
    table: [0, 6, 14, 1, 15, 4, 7, 13, 9, 8, 12, 5, 2, 10, 3, 11],
};

pub(crate) const SIGMA1: SBox = SBox {
    table: [0, 9, 13, 2, 15, 1, 11, 7, 6, 4, 5, 3, 8, 12, 10, 14],
};

pub(crate) const SIGMA0_BACK: SBox = SBox {
    table: [0, 3, 12, 14, 5, 11, 1, 6, 9, 8, 13, 15, 10, 7, 2, 4],
};

pub(crate) const SIGMA1_BACK: SBox = SBox {
    table: [0, 5, 3, 11, 9, 10, 8, 7, 12, 1, 14, 6, 13, 2, 15, 4],
};

impl Nibble {
    fn through(self, by: SBox) -> Nibble
        ensures { result.value ≡ at by.table self.value }
    {
        Nibble {
            value: by.table[self.value as usize],
        }
    }
}

impl Row {
    // One S-box at even y and another at odd y.
    pub(crate) fn through(self, even: SBox, odd: SBox) -> Row
        ensures { IsRow result (λ y.
            cond (y % 2 == 0) (at even.table (of_row self y)) (at odd.table (of_row self y))) }
    {
        let [a, b, c, d] = self.nibbles;
        Row {
            nibbles: [
                a.through(even),
                b.through(odd),
                c.through(even),
                d.through(odd),
            ],
        }
    }
}
