ghost use Rattle.std.specs.Prelude.{◌≡◌, length};

use crate::nibble::Nibble;

// The four nibbles of one x and one z, by y: what the matrix M takes.
#[derive(Clone, Copy)]
pub(crate) struct Row {
    pub(crate) nibbles: [Nibble; 4],
    ghost whole: { length nibbles ≡ 4 },
}

// Row b is that of x = b mod 4 and z = b div 4.
#[derive(Clone, Copy)]
pub(crate) struct Cube {
    pub(crate) rows: [Row; 16],
    ghost whole: { length rows ≡ 16 },
}
