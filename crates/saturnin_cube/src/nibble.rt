ghost use Rattle.std.specs.Prelude.{◌≡◌, ◌<◌, bit_xor};
ghost use Rattle.std.specs.Int.{from_bool};
ghost use Rattle.saturnin.specs.Bits.{bit as bit_of, nibble as nibble_of};
ghost use Rattle.saturnin.specs.Layers.{α};
ghost use Rattle.saturnin.specs.Back.{α⁻¹};

use std::ops::BitXor;

// Bit k of x.
pub(crate) fn bit(x: u16, k: usize) -> bool
    requires { k < 16 }
    ensures { from_bool result ≡ bit_of x k }
{
    (x >> k) % 2 == 1
}

// A number of four bits.
#[derive(Clone, Copy)]
pub(crate) struct Nibble {
    pub(crate) value: u8,
    ghost small: { value < 16 },
}

impl Nibble {
    #[tactic(auto, unfolding(saturnin::specs::Bits::nibble))]
    pub(crate) fn of_bits(x0: bool, x1: bool, x2: bool, x3: bool) -> Nibble
        ensures { result.value
            ≡ nibble_of (from_bool x0) (from_bool x1) (from_bool x2) (from_bool x3) }
    {
        Nibble {
            value: x0 as u8 + 2 * x1 as u8 + 4 * x2 as u8 + 8 * x3 as u8,
        }
    }

    pub(crate) fn bit(self, k: usize) -> bool
        requires { k < 16 }
        ensures { from_bool result ≡ bit_of self.value k }
    {
        bit(self.value as u16, k)
    }

    fn bits(self) -> (bool, bool, bool, bool)
        ensures { (from_bool result.0 ≡ bit_of self.value 0)
            × (from_bool result.1 ≡ bit_of self.value 1)
            × (from_bool result.2 ≡ bit_of self.value 2)
            × (from_bool result.3 ≡ bit_of self.value 3) }
    {
        (self.bit(0), self.bit(1), self.bit(2), self.bit(3))
    }

    // The bits x0, x1, x2, x3 become x1, x2, x3, x0 + x1.
    pub(crate) fn alpha(self) -> Nibble
        ensures { result.value ≡ α self.value }
    {
        let (x0, x1, x2, x3) = self.bits();
        Nibble::of_bits(x1, x2, x3, x0 ^ x1)
    }

    pub(crate) fn alpha_back(self) -> Nibble
        ensures { result.value ≡ α⁻¹ self.value }
    {
        let (x0, x1, x2, x3) = self.bits();
        Nibble::of_bits(x3 ^ x0, x0, x1, x2)
    }
}

// A bit alone.
impl From<bool> for Nibble {
    ghost from_gives = { λ x r. r.value ≡ from_bool x };

    fn from(bit: bool) -> Nibble {
        Nibble { value: bit as u8 }
    }
}

impl BitXor for Nibble {
    type Output = Nibble;

    ghost bitxor_gives = { λ x y r. r.value ≡ bit_xor x.value y.value };

    fn bitxor(self, other: Nibble) -> Nibble {
        Nibble {
            value: self.value ^ other.value,
        }
    }
}
