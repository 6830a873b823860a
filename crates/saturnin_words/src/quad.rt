ghost use Rattle.std.specs.Prelude.{◌≡◌, ℕ, ◌+◌, ◌%◌, ◌<◌, bit_xor};
ghost use Rattle.saturnin.specs.Layers.{σ₀, σ₁, α};
ghost use Rattle.saturnin.specs.Back.{σ₀⁻¹, σ₁⁻¹, α⁻¹};
ghost use Rattle.saturnin_words.specs.Words.{across, quad};

use crate::moves::swapped_halves;
use std::ops::BitXor;

// Four words; the four bits that stand at one place in them are a nibble.
#[derive(Clone, Copy)]
pub(crate) struct Quad {
    pub(crate) a: u32,
    pub(crate) b: u32,
    pub(crate) c: u32,
    pub(crate) d: u32,
}

impl Quad {
    // What the two S-boxes share; each then orders the four words in its own way.
    fn sigma(self) -> Quad
        ensures zero { (p : ℕ) → across result.b result.c result.d result.a p ≡ σ₀ (quad self p) }
        ensures one { (p : ℕ) → across result.d result.b result.a result.c p ≡ σ₁ (quad self p) }
    {
        let a = self.a ^ (self.b & self.c);
        let b = self.b ^ (a | self.d);
        let d = self.d ^ (b | self.c);
        let c = self.c ^ (b & d);
        let b = b ^ (a | c);
        let a = a ^ (b | d);
        Quad { a, b, c, d }
    }

    pub(crate) fn sigma0(self) -> Quad
        ensures { (p : ℕ) → quad result p ≡ σ₀ (quad self p) }
    {
        let s = self.sigma();
        Quad {
            a: s.b,
            b: s.c,
            c: s.d,
            d: s.a,
        }
    }

    pub(crate) fn sigma1(self) -> Quad
        ensures { (p : ℕ) → quad result p ≡ σ₁ (quad self p) }
    {
        let s = self.sigma();
        Quad {
            a: s.d,
            b: s.b,
            c: s.a,
            d: s.c,
        }
    }

    // The steps of `sigma` from the last to the first, and again what both S-boxes share.
    fn sigma_back(self) -> Quad
        ensures zero { (p : ℕ) → quad result p ≡ σ₀⁻¹ (across self.b self.c self.d self.a p) }
        ensures one { (p : ℕ) → quad result p ≡ σ₁⁻¹ (across self.d self.b self.a self.c p) }
    {
        let a = self.a ^ (self.b | self.d);
        let b = self.b ^ (a | self.c);
        let c = self.c ^ (b & self.d);
        let d = self.d ^ (b | c);
        let b = b ^ (a | d);
        let a = a ^ (b & c);
        Quad { a, b, c, d }
    }

    pub(crate) fn sigma0_back(self) -> Quad
        ensures { (p : ℕ) → quad result p ≡ σ₀⁻¹ (quad self p) }
    {
        let s = Quad {
            a: self.d,
            b: self.a,
            c: self.b,
            d: self.c,
        };
        s.sigma_back()
    }

    pub(crate) fn sigma1_back(self) -> Quad
        ensures { (p : ℕ) → quad result p ≡ σ₁⁻¹ (quad self p) }
    {
        let s = Quad {
            a: self.c,
            b: self.b,
            c: self.d,
            d: self.a,
        };
        s.sigma_back()
    }

    pub(crate) fn alpha(self) -> Quad
        ensures { (p : ℕ) → quad result p ≡ α (quad self p) }
    {
        Quad {
            a: self.b,
            b: self.c,
            c: self.d,
            d: self.a ^ self.b,
        }
    }

    pub(crate) fn alpha_back(self) -> Quad
        ensures { (p : ℕ) → quad result p ≡ α⁻¹ (quad self p) }
    {
        Quad {
            a: self.d ^ self.a,
            b: self.a,
            c: self.b,
            d: self.c,
        }
    }

    // One move on each of the four words.
    pub(crate) fn each<F: Fn(u32) -> u32>(self, f: F) -> Quad
        requires { F.IsAlwaysCallable f }
        ensures a { F.post f self.a result.a }
        ensures b { F.post f self.b result.b }
        ensures c { F.post f self.c result.c }
        ensures d { F.post f self.d result.d }
    {
        Quad {
            a: f(self.a),
            b: f(self.b),
            c: f(self.c),
            d: f(self.d),
        }
    }

    // Rows 0 and 2, or 1 and 3, change places.
    pub(crate) fn swapped(self) -> Quad
        ensures { (p : ℕ) → p < 32 → quad result p ≡ quad self ((p + 16) % 32) }
    {
        self.each(swapped_halves)
    }
}

impl BitXor for Quad {
    type Output = Quad;

    ghost bitxor_gives = { λ x y r. (p : ℕ) → quad r p ≡ bit_xor (quad x p) (quad y p) };

    fn bitxor(self, other: Quad) -> Quad {
        Quad {
            a: self.a ^ other.a,
            b: self.b ^ other.b,
            c: self.c ^ other.c,
            d: self.d ^ other.d,
        }
    }
}
