ghost use Rattle.saturnin_words.specs.Words.{cube_of};

use crate::bytes::quad_at;
use crate::quad::Quad;
use crate::state::State;
use saturnin::{Form, RoundConstants};

impl Form for State {
    ghost cube = { cube_of };

    fn load(block: &[u8; 32]) -> State {
        State {
            even: quad_at(block, 0),
            odd: quad_at(block, 4),
        }
    }

    // Word j is the bytes of register j, then those of register j + 8.
    fn store(self) -> [u8; 32] {
        let State { even, odd } = self;
        let words = [even.a, even.b, even.c, even.d, odd.a, odd.b, odd.c, odd.d];
        let mut bytes = [0; 32];
        for (j, word) in words.iter().enumerate() {
            let [low, high, upper_low, upper_high] = word.to_le_bytes();
            bytes[2 * j] = low;
            bytes[2 * j + 1] = high;
            bytes[2 * j + 16] = upper_low;
            bytes[2 * j + 17] = upper_high;
        }
        bytes
    }

    fn s_boxes(self) -> State {
        State {
            even: self.even.sigma0(),
            odd: self.odd.sigma1(),
        }
    }

    fn s_boxes_back(self) -> State {
        State {
            even: self.even.sigma0_back(),
            odd: self.odd.sigma1_back(),
        }
    }

    // The matrix M on all sixteen columns: rows 0 and 1, and rows 2 and 3, go through the same
    // steps side by side.
    fn columns(self) -> State {
        let even = self.even ^ self.odd;
        let odd = self.odd.alpha() ^ even.swapped();
        let even = even.alpha().alpha() ^ odd;
        let odd = odd ^ even.swapped();
        State { even, odd }
    }

    fn columns_back(self) -> State {
        let odd = self.odd ^ self.even.swapped();
        let even = (self.even ^ odd).alpha_back().alpha_back();
        let odd = (odd ^ even.swapped()).alpha_back();
        State {
            even: even ^ odd,
            odd,
        }
    }

    fn shift_slices(self) -> State {
        self.turned::<4, 0, 1, 2, 3>()
    }

    fn shift_slices_back(self) -> State {
        self.turned::<4, 0, 3, 2, 1>()
    }

    fn shift_sheets(self) -> State {
        self.turned::<16, 0, 4, 8, 12>()
    }

    fn shift_sheets_back(self) -> State {
        self.turned::<16, 0, 12, 8, 4>()
    }

    // Every row turns by five places down, or eleven up.
    fn rotated(self) -> State {
        self.turned::<16, 11, 11, 11, 11>()
    }

    // Both constants in one word: RC0 is for register 0 and RC1 for register 8, which share word 0.
    fn plus_constants(self, c: RoundConstants) -> State {
        let word = u32::from(c.0) + 65536 * u32::from(c.1);
        State {
            even: Quad {
                a: self.even.a ^ word,
                ..self.even
            },
            ..self
        }
    }

    ghost can_add = { λ s key. tt };

    ghost adds = { λ s key sum h. h };
}
