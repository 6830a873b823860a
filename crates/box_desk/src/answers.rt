ghost use Rattle.std.specs.Prelude.{◌≡◌, ◌≢◌, ◌<◌, ◌++◌, ◌-◌, length, replicate, slice_index};

use crate::shown::{Digits, Shown};
use archive_box::Sheet;
use std::fmt;
use trade_slips::{Licence, Loan, Receipt};

/// What a line was answered.
#[derive(Clone, Copy)]
pub(crate) enum Answer {
    Done,
    Places(u32),
    Drawn(u64),
    NumberAt(Option<u64>),
    Slip([u8; 48]),
    Message { bytes: [u8; 15], length: usize },
    Licence(Licence),
    Loan(Loan),
    Receipt(Receipt),
}

impl fmt::Display for Answer {
    fn fmt<W: fmt::Write>(&self, f: &mut fmt::Formatter<W>) -> fmt::Result {
        match self {
            Answer::Done => write!(f, "done"),
            Answer::Places(count) => write!(f, "{count} places"),
            Answer::Drawn(number) => write!(f, "{number}"),
            Answer::NumberAt(Some(number)) => write!(f, "{number}"),
            Answer::NumberAt(None) => write!(f, "none"),
            Answer::Slip(bytes) => {
                let digits = Digits(bytes);
                write!(f, "{digits}")
            }
            Answer::Message { bytes, length } => {
                let message = Shown(bytes.get(..*length).unwrap_or(bytes));
                write!(f, "message {message}")
            }
            Answer::Licence(Licence { design, copies }) => {
                write!(f, "design {design}, copies {copies}")
            }
            Answer::Loan(Loan { design, day }) => write!(f, "design {design}, day {day}"),
            Answer::Receipt(Receipt { cents }) => write!(f, "cents {cents}"),
        }
    }
}

/// A sheet that was read.
#[derive(Clone, Copy)]
pub(crate) struct Looked<'a>(pub(crate) Sheet<'a>);

impl fmt::Display for Looked<'_> {
    fn fmt<W: fmt::Write>(&self, f: &mut fmt::Formatter<W>) -> fmt::Result {
        let Sheet {
            number,
            label,
            message,
        } = self.0;
        let (label, message) = (Shown(without_zeros(label)), Shown(message));
        write!(f, "number {number}, label {label}, message {message}")
    }
}

// A label without the zero bytes at its end.
fn without_zeros(label: &[u8]) -> &[u8]
    ensures front { label.now ≡ result.now ++ replicate (length label.now - length result.now) 0 }
    ensures cut { 0 < length result.now → slice_index result.now (length result.now - 1) ≢ 0 }
{
    let end = label
        .iter()
        .rposition(|b| *b != 0)
        .map_or(0, |last| last + 1);
    &label[..end]
}
