ghost use Rattle.std.specs.Prelude.{codes};
ghost use Rattle.script.specs.Spelling.{SpellsSetting};
ghost use Rattle.script.specs.Words.{Parses};

use crate::words::{only_text, only_u32, split_word, text_of};

/// The forms of the cipher.
#[derive(Clone, Copy)]
pub enum CipherForm {
    Cube,
    Words,
}

/// What the boxes made after it are made with.
#[derive(Clone, Copy)]
pub enum Setting<'a> {
    Key { file: &'a str },
    Form(CipherForm),
    Tray { file: &'a str },
    Plate { file: &'a str, places: u32 },
}

impl<'a> Setting<'a> {
    pub(crate) fn of(name: &str, rest: &'a [u8]) -> Option<Setting<'a>>
        ensures { Parses (SpellsSetting name.now rest.now) result }
    {
        match name {
            "key" => Some(Setting::Key {
                file: only_text(rest)?,
            }),
            "form" => Setting::of_form(rest),
            "tray" => Some(Setting::Tray {
                file: only_text(rest)?,
            }),
            "plate" => Setting::of_plate(rest),
            _ => None,
        }
    }

    fn of_form(rest: &[u8]) -> Option<Setting<'a>>
        ensures { Parses (SpellsSetting (codes "form") rest.now) result }
    {
        match only_text(rest)? {
            "cube" => Some(Setting::Form(CipherForm::Cube)),
            "words" => Some(Setting::Form(CipherForm::Words)),
            _ => None,
        }
    }

    fn of_plate(rest: &'a [u8]) -> Option<Setting<'a>>
        ensures { Parses (SpellsSetting (codes "plate") rest.now) result }
    {
        let (file, rest) = split_word(rest);
        Some(Setting::Plate {
            file: text_of(file)?,
            places: only_u32(rest)?,
        })
    }
}
