ghost use Rattle.std.specs.Prelude.{◌≡◌, ◌/◌, ◌%◌, ◌≤◌, ◌⊎◌, [], ◌∷◌};
ghost use Rattle.octets.specs.Lists.{at};
ghost use Rattle.saturnin.specs.Cube.{cube};
ghost use Rattle.saturnin.specs.Layers.{add};
ghost use Rattle.saturnin_words.specs.Words.{cube_of, in_cube};

use crate::moves::turned;
use crate::quad::Quad;
use std::ops::BitXor;

// A state or a key: words 0 to 3, with the nibbles of even index, and words 4 to 7, with those of
// odd index.
#[derive(Clone, Copy)]
pub(crate) struct State {
    pub(crate) even: Quad,
    pub(crate) odd: Quad,
}

impl State {
    // Row y turns Yy places up, in groups of WIDTH bits.
    pub(crate) fn turned<
        const WIDTH: u32,
        const Y0: u32,
        const Y1: u32,
        const Y2: u32,
        const Y3: u32,
    >(self) -> State
        requires width { (WIDTH ≡ 4) ⊎ (WIDTH ≡ 16) }
        requires y0 { Y0 ≤ WIDTH }
        requires y1 { Y1 ≤ WIDTH }
        requires y2 { Y2 ≤ WIDTH }
        requires y3 { Y3 ≤ WIDTH }
        ensures { cube_of result ≡ cube (λ i. at (cube_of self)
            (in_cube WIDTH (at (Y0 ∷ Y1 ∷ Y2 ∷ Y3 ∷ [])) i)) }
    {
        State {
            even: self.even.each(turned::<WIDTH, Y0, Y2>),
            odd: self.odd.each(turned::<WIDTH, Y1, Y3>),
        }
    }
}

impl BitXor for State {
    type Output = State;

    ghost bitxor_gives = { λ s key r. cube_of r ≡ add (cube_of key) (cube_of s) };

    fn bitxor(self, key: State) -> State {
        State {
            even: self.even ^ key.even,
            odd: self.odd ^ key.odd,
        }
    }
}
