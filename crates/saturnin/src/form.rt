ghost use Rattle.std.specs.Prelude.{◌≡◌, List};
ghost use Rattle.saturnin.specs.Cube.{Cube, to_cube, from_cube};
ghost use Rattle.saturnin.specs.Layers.{S, MC, SR_slice, SR_slice⁻¹, SR_sheet, SR_sheet⁻¹, add};
ghost use Rattle.saturnin.specs.Back.{S⁻¹, MC⁻¹};
ghost use Rattle.saturnin.specs.Rounds.{constants, rotated};

use crate::schedule::RoundConstants;
use std::ops::BitXor;

/// A form of the cube: what holds one, and the layers of the cipher on it.
pub trait Form: Copy + BitXor<Output = Self> {
    ghost cube: { Self → Cube };

    /// The cube of 32 bytes.
    fn load(block: &[u8; 32]) -> Self
        ensures { cube result ≡ to_cube block.now };

    /// The 32 bytes of the cube.
    fn store(self) -> [u8; 32]
        ensures { result ≡ from_cube (cube self) };

    /// Every nibble through its S-box.
    fn s_boxes(self) -> Self
        ensures { cube result ≡ S (cube self) };

    /// `s_boxes` undone.
    fn s_boxes_back(self) -> Self
        ensures { cube result ≡ S⁻¹ (cube self) };

    /// The matrix M on every column.
    fn columns(self) -> Self
        ensures { cube result ≡ MC (cube self) };

    /// `columns` undone.
    fn columns_back(self) -> Self
        ensures { cube result ≡ MC⁻¹ (cube self) };

    /// Nibble (x, y, z) to (x + y mod 4, y, z).
    fn shift_slices(self) -> Self
        ensures { cube result ≡ SR_slice (cube self) };

    /// `shift_slices` undone.
    fn shift_slices_back(self) -> Self
        ensures { cube result ≡ SR_slice⁻¹ (cube self) };

    /// Nibble (x, y, z) to (x, y, z + y mod 4).
    fn shift_sheets(self) -> Self
        ensures { cube result ≡ SR_sheet (cube self) };

    /// `shift_sheets` undone.
    fn shift_sheets_back(self) -> Self
        ensures { cube result ≡ SR_sheet⁻¹ (cube self) };

    /// The rotated key: nibble i from nibble i + 20 mod 64.
    fn rotated(self) -> Self
        ensures { cube result ≡ rotated (cube self) };

    /// The two constants of a super-round added.
    fn plus_constants(self, c: RoundConstants) -> Self
        ensures { cube result ≡ add (constants c.0 c.1) (cube self) };

    ghost can_add: { (s key : Self) → Self.can_bitxor s key };

    ghost adds: { (s key sum : Self) → Self.bitxor_gives s key sum
        → cube sum ≡ add (cube key) (cube s) };
}
