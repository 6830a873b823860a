ghost use Rattle.std.specs.Prelude.{codes, ℕ, MatchOption};
ghost use Rattle.script.specs.Spelling.{SpellsTradeCall, ThreeNumerals};
ghost use Rattle.script.specs.Words.{Parses};

use crate::words::{only_text, only_u16, only_u64, split_u32, split_u64};
use trade_slips::{Licence, Loan, Receipt};

/// A call that makes a slip of a kind, under a number named by its value, or reads one.
#[derive(Clone, Copy)]
pub enum TradeCall<'a> {
    Licence { number: u64, licence: Licence },
    Loan { number: u64, loan: Loan },
    Receipt { number: u64, receipt: Receipt },
    ReadLicence { digits: &'a str },
    ReadLoan { digits: &'a str },
    ReadReceipt { digits: &'a str },
}

impl<'a> TradeCall<'a> {
    pub(crate) fn of(name: &str, rest: &'a [u8]) -> Option<TradeCall<'a>>
        ensures { Parses (SpellsTradeCall name.now rest.now) result }
    {
        match name {
            "licence" => TradeCall::of_licence(rest),
            "loan" => TradeCall::of_loan(rest),
            "receipt" => TradeCall::of_receipt(rest),
            "read-licence" => Some(TradeCall::ReadLicence {
                digits: only_text(rest)?,
            }),
            "read-loan" => Some(TradeCall::ReadLoan {
                digits: only_text(rest)?,
            }),
            "read-receipt" => Some(TradeCall::ReadReceipt {
                digits: only_text(rest)?,
            }),
            _ => None,
        }
    }

    fn of_licence(rest: &[u8]) -> Option<TradeCall<'a>>
        ensures { Parses (SpellsTradeCall (codes "licence") rest.now) result }
    {
        let (number, design, copies) = three_numbers(rest)?;
        Some(TradeCall::Licence {
            number,
            licence: Licence { design, copies },
        })
    }

    fn of_loan(rest: &[u8]) -> Option<TradeCall<'a>>
        ensures { Parses (SpellsTradeCall (codes "loan") rest.now) result }
    {
        let (number, design, day) = three_numbers(rest)?;
        Some(TradeCall::Loan {
            number,
            loan: Loan { design, day },
        })
    }

    fn of_receipt(rest: &[u8]) -> Option<TradeCall<'a>>
        ensures { Parses (SpellsTradeCall (codes "receipt") rest.now) result }
    {
        let (number, cents) = split_u64(rest)?;
        Some(TradeCall::Receipt {
            number,
            receipt: Receipt {
                cents: only_u64(cents)?,
            },
        })
    }
}

// A number, a design, and copies or a day.
fn three_numbers(text: &[u8]) -> Option<(u64, u32, u16)>
    ensures { MatchOption result
        ((number design last : ℕ) → ¬ (ThreeNumerals text.now number design last))
        (λ found. ThreeNumerals text.now found.0 found.1 found.2) }
{
    let (number, rest) = split_u64(text)?;
    let (design, last) = split_u32(rest)?;
    Some((number, design, only_u16(last)?))
}
