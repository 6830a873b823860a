ghost use Rattle.std.specs.Prelude.{◌≡◌, refl};
ghost use Rattle.std.specs.List.{list_all};
ghost use Rattle.slip_kinds.specs.Fields.{in_range};
ghost use Rattle.slip_kinds.proofs.Fields.{kind_of_fields};
ghost use Rattle.test_kinds.specs.Remakes.{remake as remake_of, remake_fields};
ghost use Rattle.test_kinds.specs.Numbers.{of_numbers, given};

use arrayvec::ArrayVec;
use slip_kinds::SlipKind;
use trade_slips::LAST_DESIGN;

// One pane of a design to be made again: the design is 1 to `LAST_DESIGN`.
#[derive(Clone, Copy, PartialEq, Eq, Debug)]
pub(crate) struct Remake {
    pub(crate) design: u32,
    pub(crate) pane: u8,
    pub(crate) urgent: bool,
}

fn is_in_range(remake: Remake) -> bool
    ensures { result ≡ list_all in_range (remake_fields remake) }
{
    (1..=LAST_DESIGN).contains(&remake.design)
}

// Remakes: the byte 4, the design in 4 bytes, the pane in 1, and 1 where it is urgent, else 0.
pub(crate) struct Remakes;

impl SlipKind for Remakes {
    type Content = Remake;

    ghost writes = { remake_of };

    #[tactic(auto, using(crate::proofs::Messages::remake_bytes))]
    fn write(remake: &Remake) -> Option<ArrayVec<u8, 15>> {
        let Remake {
            design,
            pane,
            urgent,
        } = *remake;
        if !is_in_range(*remake) {
            return None;
        }
        let [a, b, c, d] = design.to_be_bytes();
        Some(ArrayVec::try_from(&[4, a, b, c, d, pane, urgent as u8][..]).unwrap())
    }

    #[tactic(auto, using(crate::proofs::Messages::reads))]
    fn read(message: &[u8]) -> Option<Remake> {
        let &[4, a, b, c, d, pane, urgent] = message else {
            return None;
        };
        if urgent > 1 {
            return None;
        }
        let remake = Remake {
            design: u32::from_be_bytes([a, b, c, d]),
            pane,
            urgent: urgent == 1,
        };
        if !is_in_range(remake) {
            return None;
        }
        Some(remake)
    }

    ghost is_kind = { kind_of_fields 4 remake_fields of_numbers given (λ c d. refl) (λ c. refl) };
}
