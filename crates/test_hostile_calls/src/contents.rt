use crate::calls::{Content, KindOfSlip};
use crate::dice::Dice;
use crate::plain_box::Slipped;
use crate::plain_kinds::{Bounds, CENTS, COPIES, DAY, DESIGN, spelt};
use crate::plain_records::write;
use std::alloc::{AllocError, Global};

// Contents of slips, mostly in their ranges, and messages that are nearly of a kind.

fn kind(dice: &mut Dice) -> KindOfSlip {
    match dice.below(3) {
        0 => KindOfSlip::Licence,
        1 => KindOfSlip::Loan,
        _ => KindOfSlip::Receipt,
    }
}

// What to read a slip as: mostly the kind that its message begins with.
pub(crate) fn kind_for(dice: &mut Dice, slip: Option<Slipped>) -> KindOfSlip {
    let first = match slip {
        Some(slip) if !dice.one_in(4) => slip.message.bytes().first().copied(),
        _ => None,
    };
    match first {
        Some(1) => KindOfSlip::Licence,
        Some(2) => KindOfSlip::Loan,
        Some(3) => KindOfSlip::Receipt,
        _ => kind(dice),
    }
}

pub(crate) fn content(dice: &mut Dice) -> Content {
    match kind(dice) {
        KindOfSlip::Licence => Content::Licence {
            design: four_bytes(dice, DESIGN),
            copies: two_bytes(dice, COPIES),
        },
        KindOfSlip::Loan => Content::Loan {
            design: four_bytes(dice, DESIGN),
            day: two_bytes(dice, DAY),
        },
        KindOfSlip::Receipt => Content::Receipt {
            cents: number(dice, CENTS),
        },
    }
}

// Mostly between the bounds; often a bound, one beyond it, 0 or as large as can be.
fn number(dice: &mut Dice, bounds: Bounds) -> u64 {
    match dice.below(20) {
        0 | 1 => bounds.least,
        2 | 3 => bounds.greatest,
        4 => bounds.least.saturating_sub(1),
        5 => bounds.greatest.saturating_add(1),
        6 => 0,
        7 => u64::MAX,
        _ => {
            let rolled = dice.next().checked_rem(bounds.greatest).unwrap_or(0);
            rolled.max(bounds.least)
        }
    }
}

fn four_bytes(dice: &mut Dice, bounds: Bounds) -> u32 {
    number(dice, bounds).min(0xFFFF_FFFF) as u32
}

fn two_bytes(dice: &mut Dice, bounds: Bounds) -> u16 {
    number(dice, bounds).min(0xFFFF) as u16
}

// A message of a slip: any bytes, or that of a content, also of one outside its range, now and then
// of another kind byte, a byte too long or a byte too short.
pub(crate) fn message(dice: &mut Dice, heap: Global) -> Result<Vec<u8>, AllocError> {
    if !dice.one_in(3) {
        let length = dice.length_up_to(15);
        return dice.bytes(heap, length);
    }
    let mut message = spelt(&content(dice)).bytes().to_vec(heap)?;
    match dice.below(6) {
        0 => write(&mut message, 0, &[dice.byte() % 5]),
        1 => message.push(dice.byte())?,
        2 => {
            let _ = message.pop();
        }
        _ => {}
    }
    Ok(message)
}
