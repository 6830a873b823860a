ghost use Rattle.std.specs.Prelude.{◌≡◌, ◌*◌};
ghost use Rattle.saturnin.specs.Layers.{add};
ghost use Rattle.saturnin.specs.Rounds.{rounds, forward};
ghost use Rattle.saturnin.specs.Back.{rounds⁻¹, back};
ghost use Rattle.saturnin.specs.TwoRounds.{super_round as super_round_of, super_round⁻¹};

use crate::form::Form;
use crate::schedule::{Constants, RoundConstants};
use crate::shifts::{Shift, ShiftSheets, ShiftSlices};

/// The block that the cipher gives under a key of 32 bytes, worked in a form of the cube.
#[tactic(auto, unfolding(crate::specs::Rounds::forward))]
pub fn encrypted<F: Form>(constants: Constants, key: &[u8; 32], block: &[u8; 32]) -> [u8; 32]
    ensures { result ≡ forward key.now constants.entry.of.separator
        constants.entry.of.«super_rounds» block.now }
{
    rounds(constants, F::load(key), F::load(block)).store()
}

/// The block that the cipher takes to the given one.
#[tactic(auto, unfolding(crate::specs::Back::back))]
pub fn decrypted<F: Form>(constants: Constants, key: &[u8; 32], block: &[u8; 32]) -> [u8; 32]
    ensures { result ≡ back key.now constants.entry.of.separator
        constants.entry.of.«super_rounds» block.now }
{
    rounds_back(constants, F::load(key), F::load(block)).store()
}

// The key is added, and then come the super-rounds. They shift in slices and in sheets by turns, so
// they go in pairs; with an odd count one is left over.
fn rounds<F: Form>(constants: Constants, key: F, block: F) -> F
    ensures { let by = constants.entry.of in
        F.cube result ≡ rounds (F.cube key) by.separator by.«super_rounds»
        (2 * by.«super_rounds») (add (F.cube key) (F.cube block)) }
{
    let turned_key = key.rotated();
    let (pairs, rest) = constants.rounds.as_chunks::<2>();
    let mut s = block ^ key;
    for [slice, sheet] in pairs {
        s = super_round::<ShiftSlices, F>(s, turned_key, *slice);
        s = super_round::<ShiftSheets, F>(s, key, *sheet);
    }
    if let Some(last) = rest.first() {
        s = super_round::<ShiftSlices, F>(s, turned_key, *last);
    }
    s
}

// The same from the last super-round to the first; the key is taken away at the end.
fn rounds_back<F: Form>(constants: Constants, key: F, block: F) -> F
    ensures { let by = constants.entry.of in
        F.cube result ≡ add (F.cube key) (rounds⁻¹ (F.cube key) by.separator by.«super_rounds»
        (2 * by.«super_rounds») (F.cube block)) }
{
    let turned_key = key.rotated();
    let (pairs, rest) = constants.rounds.as_chunks::<2>();
    let mut s = match rest.first() {
        Some(last) => super_round_back::<ShiftSlices, F>(block, turned_key, *last),
        None => block,
    };
    for [slice, sheet] in pairs.iter().rev() {
        s = super_round_back::<ShiftSheets, F>(s, key, *sheet);
        s = super_round_back::<ShiftSlices, F>(s, turned_key, *slice);
    }
    s ^ key
}

#[inline(always)]
#[tactic(auto, unfolding(crate::specs::TwoRounds::super_round))]
fn super_round<T: Shift, F: Form>(s: F, key: F, c: RoundConstants) -> F
    ensures { F.cube result ≡ super_round_of T.there T.back (F.cube key) c.0 c.1 (F.cube s) }
{
    let s = s.s_boxes().columns().s_boxes();
    let s = T::back(T::there(s).columns());
    s.plus_constants(c) ^ key
}

#[inline(always)]
fn super_round_back<T: Shift, F: Form>(s: F, key: F, c: RoundConstants) -> F
    ensures { F.cube result ≡ super_round⁻¹ T.there T.back (F.cube key) c.0 c.1 (F.cube s) }
{
    let s = s.plus_constants(c) ^ key;
    let s = T::back(T::there(s).columns_back());
    s.s_boxes_back().columns_back().s_boxes_back()
}
