ghost use Rattle.std.specs.Prelude.{codes};
ghost use Rattle.script.specs.Spelling.{LineSpells, SpellsAfter};
ghost use Rattle.script.specs.Words.{Parses};

use crate::box_calls::BoxCall;
use crate::settings::Setting;
use crate::words::{only_u32, only_u64, split_word, text_of, without_blanks};

/// What a line of a script calls for.
#[derive(Clone, Copy)]
pub enum Call<'a> {
    /// something that the boxes made after it are made with
    Set(Setting<'a>),
    /// a box with this sign, in hexadecimal digits, and this first number
    Make { sign: &'a str, first: u64 },
    /// a look at the sheet of a place
    Read { place: u32 },
    /// any other call on a box
    Ask(BoxCall<'a>),
}

impl<'a> Call<'a> {
    /// The call that a line spells, if it spells one.
    pub fn of(line: &'a [u8]) -> Option<Call<'a>>
        ensures { Parses (LineSpells line.now) result }
    {
        let (name, rest) = split_word(without_blanks(line));
        Call::named(text_of(name)?, rest)
    }

    fn named(name: &str, rest: &'a [u8]) -> Option<Call<'a>>
        ensures { Parses (SpellsAfter name.now rest.now) result }
    {
        match name {
            "make" => Call::of_make(rest),
            "read" => Some(Call::Read {
                place: only_u32(rest)?,
            }),
            "key" | "form" | "tray" | "plate" => Some(Call::Set(Setting::of(name, rest)?)),
            _ => Some(Call::Ask(BoxCall::of(name, rest)?)),
        }
    }

    fn of_make(rest: &'a [u8]) -> Option<Call<'a>>
        ensures { Parses (SpellsAfter (codes "make") rest.now) result }
    {
        let (sign, first) = split_word(rest);
        Some(Call::Make {
            sign: text_of(sign)?,
            first: only_u64(first)?,
        })
    }
}
