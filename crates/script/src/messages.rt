ghost use Rattle.std.specs.Prelude.{◌≡◌, ℕ, List, IfOk, MatchOption};
ghost use Rattle.script.specs.Messages.{SpellsMessage, Starred, bytes_of};
ghost use Rattle.script.specs.Words.{Parses};

use crate::words::{is_numeral, u16_in};
use std::alloc::{AllocError, Global};

/// A message as a line has it.
#[derive(Clone, Copy)]
pub enum Message<'a> {
    /// these bytes
    Written(&'a [u8]),
    /// so many bytes `x`
    Many(u16),
}

impl<'a> Message<'a> {
    // `-` is a message of no bytes, and `*` with a count one of so many bytes 'x'; another text
    // stands for its bytes.
    pub(crate) fn of(text: &'a [u8]) -> Option<Message<'a>>
        ensures { Parses (SpellsMessage text.now) result }
    {
        if let Some(digits) = starred(text) {
            return Some(Message::Many(u16_in(digits)?));
        }
        match text {
            [] => None,
            b"-" => Some(Message::Written(&[])),
            _ => Some(Message::Written(text)),
        }
    }

    /// Its bytes.
    pub fn bytes(&self, heap: Global) -> Result<Vec<u8>, AllocError>
        ensures { IfOk result (λ v. v.items ≡ bytes_of self.now) }
    {
        match *self {
            Message::Written(text) => text.to_vec(heap),
            Message::Many(n) => vec![in heap; b'x'; n as usize],
        }
    }
}

// The digits of a text that is a star with a count.
fn starred(text: &[u8]) -> Option<&[u8]>
    ensures { MatchOption result ((digits : List ℕ) → ¬ (Starred text.now digits))
        (λ digits. Starred text.now digits.now) }
{
    match text {
        [b'*', digits @ ..] if is_numeral(digits) => Some(digits),
        _ => None,
    }
}
