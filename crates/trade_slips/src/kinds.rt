ghost use Rattle.std.specs.Prelude.{refl};
ghost use Rattle.octets.specs.Lists.{at};
ghost use Rattle.slip_kinds.proofs.Fields.{kind_of_fields};
ghost use Rattle.trade_slips.specs.Trade.{licence, licence_fields, loan, loan_fields};
ghost use Rattle.trade_slips.specs.Trade.{receipt, receipt_fields};

use crate::contents::{LAST_DAY, Licence, Loan, MOST_CENTS, MOST_COPIES, Receipt};
use crate::of_design;
use arrayvec::ArrayVec;
use slip_kinds::SlipKind;

// The byte that a message begins with, by its kind.
const LICENCE: u8 = 1;

const LOAN: u8 = 2;

const RECEIPT: u8 = 3;

/// Licences. A message has 7 bytes: 1, the design in 4 and the copies in 2.
pub struct Licences;

impl SlipKind for Licences {
    type Content = Licence;

    ghost writes = { licence };

    fn write(licence: &Licence) -> Option<ArrayVec<u8, 15>> {
        of_design::write(LICENCE, MOST_COPIES, licence.design, licence.copies)
    }

    fn read(message: &[u8]) -> Option<Licence> {
        let (design, copies) = of_design::read(LICENCE, MOST_COPIES, message)?;
        Some(Licence { design, copies })
    }

    ghost is_kind = { kind_of_fields 1 licence_fields
        (λ numbers. record { design = at numbers 0; copies = at numbers 1 })
        (λ c. refl) (λ c d. refl) (λ c. refl) };
}

/// Loans. A message has 7 bytes: 2, the design in 4 and the day in 2.
pub struct Loans;

impl SlipKind for Loans {
    type Content = Loan;

    ghost writes = { loan };

    fn write(loan: &Loan) -> Option<ArrayVec<u8, 15>> {
        of_design::write(LOAN, LAST_DAY, loan.design, loan.day)
    }

    fn read(message: &[u8]) -> Option<Loan> {
        let (design, day) = of_design::read(LOAN, LAST_DAY, message)?;
        Some(Loan { design, day })
    }

    ghost is_kind = { kind_of_fields 2 loan_fields
        (λ numbers. record { design = at numbers 0; day = at numbers 1 })
        (λ c. refl) (λ c d. refl) (λ c. refl) };
}

/// Receipts. A message has 9 bytes: 3, and the cents in 8.
pub struct Receipts;

impl SlipKind for Receipts {
    type Content = Receipt;

    ghost writes = { receipt };

    #[tactic(auto, using(crate::proofs::Messages::bytes))]
    fn write(receipt: &Receipt) -> Option<ArrayVec<u8, 15>> {
        if receipt.cents > MOST_CENTS {
            return None;
        }
        let [a, b, c, d, e, f, g, h] = receipt.cents.to_be_bytes();
        Some(ArrayVec::try_from(&[RECEIPT, a, b, c, d, e, f, g, h][..]).unwrap())
    }

    #[tactic(auto, using(crate::proofs::Messages::reads))]
    fn read(message: &[u8]) -> Option<Receipt> {
        let &[RECEIPT, a, b, c, d, e, f, g, h] = message else {
            return None;
        };
        let cents = u64::from_be_bytes([a, b, c, d, e, f, g, h]);
        if cents > MOST_CENTS {
            return None;
        }
        Some(Receipt { cents })
    }

    ghost is_kind = { kind_of_fields 3 receipt_fields
        (λ numbers. record { cents = at numbers 0 })
        (λ c. refl) (λ c d. refl) (λ c. refl) };
}
