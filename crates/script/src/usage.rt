ghost use Rattle.std.specs.Prelude.{◌↔◌, ◌≡◌, IsSome, IfSome};
ghost use Rattle.script.specs.Names.{call_names, OneOf, NamesCall, CallsAreNamed};
ghost use Rattle.script.specs.Spelling.{name_of};
ghost use Rattle.script.specs.Words.{first_word};

use crate::words::{split_word, text_of, without_blanks};

/// How the call that a line names is to be written, its name first; none if the line names no call.
pub fn usage_of(line: &[u8]) -> Option<&'static str>
    ensures named { IsSome result ↔ NamesCall line.now }
    ensures begins { IfSome result (λ usage. first_word usage.now ≡ name_of line.now) }
    ensures calls { CallsAreNamed line.now }
{
    let (name, _) = split_word(without_blanks(line));
    usage_named(text_of(name)?)
}

fn usage_named(name: &str) -> Option<&'static str>
    ensures named { IsSome result ↔ OneOf call_names name.now }
    ensures begins { IfSome result (λ usage. first_word usage.now ≡ name.now) }
{
    match name {
        "key" => Some("key FILE"),
        "form" => Some("form cube|words"),
        "tray" => Some("tray FILE"),
        "plate" => Some("plate FILE PLACES"),
        "make" => Some("make SIGN FIRST"),
        "draw" => Some("draw"),
        "seal" => Some("seal NUMBER PLACE LABEL MESSAGE"),
        "slip" => Some("slip NUMBER MESSAGE"),
        "void" => Some("void NUMBER"),
        "clear" => Some("clear PLACE"),
        "read" => Some("read PLACE"),
        "unslip" => Some("unslip HEX"),
        "number" => Some("number PLACE"),
        "save" => Some("save FILE"),
        "licence" => Some("licence NUMBER DESIGN COPIES"),
        "loan" => Some("loan NUMBER DESIGN DAY"),
        "receipt" => Some("receipt NUMBER CENTS"),
        "read-licence" => Some("read-licence HEX"),
        "read-loan" => Some("read-loan HEX"),
        "read-receipt" => Some("read-receipt HEX"),
        _ => None,
    }
}
