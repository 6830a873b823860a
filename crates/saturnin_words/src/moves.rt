ghost use Rattle.std.specs.Prelude.{◌≡◌, ℕ, ◌+◌, ◌%◌, ◌<◌, ◌≤◌, ◌⊎◌};
ghost use Rattle.saturnin.specs.Bits.{bit};
ghost use Rattle.saturnin_words.specs.Words.{in_word};

pub(crate) fn swapped_halves(x: u32) -> u32
    ensures { (p : ℕ) → p < 32 → bit result p ≡ bit x ((p + 16) % 32) }
{
    x.rotate_left(16)
}

// Each half of a word is a row of sixteen bits, in groups of WIDTH: the bits of the lower row turn
// LOW places up in their group, and those of the upper row HIGH places.
pub(crate) fn turned<const WIDTH: u32, const LOW: u32, const HIGH: u32>(x: u32) -> u32
    requires width { (WIDTH ≡ 4) ⊎ (WIDTH ≡ 16) }
    requires low { LOW ≤ WIDTH }
    requires high { HIGH ≤ WIDTH }
    ensures { (p : ℕ) → p < 32 → bit result p ≡ bit x (in_word WIDTH LOW HIGH p) }
{
    let group = (1 << WIDTH) - 1;
    let low = 0xffff / group * (group >> LOW);
    let high = (0xffff / group * (group >> HIGH)) << 16;
    ((x & low) << LOW)
        | ((x & (0x0000_ffff - low)) >> (WIDTH - LOW))
        | ((x & high) << HIGH)
        | ((x & (0xffff_0000 - high)) >> (WIDTH - HIGH))
}
