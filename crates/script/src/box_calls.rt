ghost use Rattle.std.specs.Prelude.{codes};
ghost use Rattle.script.specs.Spelling.{SpellsBoxCall};
ghost use Rattle.script.specs.Words.{Parses};

use crate::messages::Message;
use crate::trade_calls::TradeCall;
use crate::words::{only_text, only_u32, only_u64, split_u32, split_u64, split_word};

/// A call on a box, other than a read. A number is named by its value.
#[derive(Clone, Copy)]
pub enum BoxCall<'a> {
    Draw,
    Seal {
        number: u64,
        place: u32,
        label: &'a [u8],
        message: Message<'a>,
    },
    Slip {
        number: u64,
        message: Message<'a>,
    },
    Void {
        number: u64,
    },
    Clear {
        place: u32,
    },
    Unslip {
        digits: &'a str,
    },
    Number {
        place: u32,
    },
    Save {
        file: &'a str,
    },
    Trade(TradeCall<'a>),
}

impl<'a> BoxCall<'a> {
    pub(crate) fn of(name: &str, rest: &'a [u8]) -> Option<BoxCall<'a>>
        ensures { Parses (SpellsBoxCall name.now rest.now) result }
    {
        match name {
            "draw" => rest.is_empty().then_some(BoxCall::Draw),
            "seal" => BoxCall::of_seal(rest),
            "slip" => BoxCall::of_slip(rest),
            "void" => Some(BoxCall::Void {
                number: only_u64(rest)?,
            }),
            "unslip" => Some(BoxCall::Unslip {
                digits: only_text(rest)?,
            }),
            "save" => Some(BoxCall::Save {
                file: only_text(rest)?,
            }),
            "clear" => Some(BoxCall::Clear {
                place: only_u32(rest)?,
            }),
            "number" => Some(BoxCall::Number {
                place: only_u32(rest)?,
            }),
            _ => Some(BoxCall::Trade(TradeCall::of(name, rest)?)),
        }
    }

    fn of_seal(rest: &'a [u8]) -> Option<BoxCall<'a>>
        ensures { Parses (SpellsBoxCall (codes "seal") rest.now) result }
    {
        let (number, rest) = split_u64(rest)?;
        let (place, rest) = split_u32(rest)?;
        let (label, message) = split_word(rest);
        Some(BoxCall::Seal {
            number,
            place,
            label,
            message: Message::of(message)?,
        })
    }

    fn of_slip(rest: &'a [u8]) -> Option<BoxCall<'a>>
        ensures { Parses (SpellsBoxCall (codes "slip") rest.now) result }
    {
        let (number, message) = split_u64(rest)?;
        Some(BoxCall::Slip {
            number,
            message: Message::of(message)?,
        })
    }
}
