ghost use Rattle.std.specs.Prelude.{◌≡◌, ℕ, MatchOption, Some, None};
ghost use Rattle.std.specs.List.{list_all};
ghost use Rattle.faults.specs.Tables.{Not};
ghost use Rattle.slip_kinds.specs.Fields.{in_range};
ghost use Rattle.trade_slips.specs.Trade.{design_fields, of_design};

use crate::contents::LAST_DESIGN;
use arrayvec::ArrayVec;

// The message of a design and a number: the byte of the kind, the design in 4 bytes and the number
// in 2; none where one of them is outside its range.
#[tactic(auto, using(crate::proofs::Messages::bytes))]
pub(crate) fn write(kind: u8, greatest: u16, design: u32, number: u16) -> Option<ArrayVec<u8, 15>>
    ensures { let meaning = of_design kind greatest design number in
        MatchOption result (meaning ≡ None) (λ message. meaning ≡ Some message.items) }
{
    if !is_in_range(greatest, design, number) {
        return None;
    }
    let [a, b, c, d] = design.to_be_bytes();
    let [e, f] = number.to_be_bytes();
    Some(ArrayVec::try_from(&[kind, a, b, c, d, e, f][..]).unwrap())
}

// The design and the number that have this message.
#[tactic(auto, using(crate::proofs::Messages::reads))]
pub(crate) fn read(kind: u8, greatest: u16, message: &[u8]) -> Option<(u32, u16)>
    ensures { MatchOption result
        ((n m : ℕ) → Not (of_design kind greatest n m ≡ Some message.now))
        (λ p. of_design kind greatest p.0 p.1 ≡ Some message.now) }
{
    let &[first, a, b, c, d, e, f] = message else {
        return None;
    };
    if first != kind {
        return None;
    }
    let design = u32::from_be_bytes([a, b, c, d]);
    let number = u16::from_be_bytes([e, f]);
    if !is_in_range(greatest, design, number) {
        return None;
    }
    Some((design, number))
}

fn is_in_range(greatest: u16, design: u32, number: u16) -> bool
    ensures { result ≡ list_all in_range (design_fields greatest design number) }
{
    (1..=LAST_DESIGN).contains(&design) && (1..=greatest).contains(&number)
}
