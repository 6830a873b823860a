use crate::calls::{Content, KindOfSlip};
use crate::plain_records::write;

// Kinds of slips once more: a message has the byte of its kind and its numbers, byte by byte.

// The least and the greatest of a number.
#[derive(Clone, Copy)]
pub(crate) struct Bounds {
    pub(crate) least: u64,
    pub(crate) greatest: u64,
}

pub(crate) const DESIGN: Bounds = Bounds {
    least: 1,
    greatest: 99_999_999,
};

pub(crate) const COPIES: Bounds = Bounds {
    least: 1,
    greatest: 999,
};

pub(crate) const DAY: Bounds = Bounds {
    least: 1,
    greatest: 36_600,
};

pub(crate) const CENTS: Bounds = Bounds {
    least: 0,
    greatest: 1_000_000_000_000,
};

impl Bounds {
    fn admit(self, number: u64) -> bool {
        self.least <= number && number <= self.greatest
    }
}

fn is_in_range(content: &Content) -> bool {
    match *content {
        Content::Licence { design, copies } => {
            DESIGN.admit(design.into()) && COPIES.admit(copies.into())
        }
        Content::Loan { design, day } => DESIGN.admit(design.into()) && DAY.admit(day.into()),
        Content::Receipt { cents } => CENTS.admit(cents),
    }
}

// At most 15 bytes.
#[derive(Clone, Copy)]
pub(crate) struct Message {
    bytes: [u8; 15],
    length: usize,
}

impl Message {
    // As many of the bytes as there is room for.
    pub(crate) fn of(bytes: &[u8]) -> Message {
        let mut message = Message {
            bytes: [0; 15],
            length: bytes.len().min(15),
        };
        write(&mut message.bytes, 0, bytes);
        message
    }

    pub(crate) fn bytes(&self) -> &[u8] {
        self.bytes.get(..self.length).unwrap_or_default()
    }

    // Zeros after it.
    pub(crate) fn padded(&self) -> [u8; 15] {
        self.bytes
    }
}

// What a content comes to, whether it is in its range or not.
pub(crate) fn spelt(content: &Content) -> Message {
    match *content {
        Content::Licence { design, copies } => two_numbers(1, design, copies),
        Content::Loan { design, day } => two_numbers(2, design, day),
        Content::Receipt { cents } => {
            let [a, b, c, d, e, f, g, h] = cents.to_be_bytes();
            Message::of(&[3, a, b, c, d, e, f, g, h])
        }
    }
}

fn two_numbers(kind: u8, first: u32, second: u16) -> Message {
    let [a, b, c, d] = first.to_be_bytes();
    let [e, f] = second.to_be_bytes();
    Message::of(&[kind, a, b, c, d, e, f])
}

pub(crate) fn message_of(content: &Content) -> Option<Message> {
    is_in_range(content).then(|| spelt(content))
}

pub(crate) fn content_of(kind: KindOfSlip, message: &[u8]) -> Option<Content> {
    let content = match (kind, message) {
        (KindOfSlip::Licence, [1, a, b, c, d, e, f]) => Content::Licence {
            design: u32::from_be_bytes([*a, *b, *c, *d]),
            copies: u16::from_be_bytes([*e, *f]),
        },
        (KindOfSlip::Loan, [2, a, b, c, d, e, f]) => Content::Loan {
            design: u32::from_be_bytes([*a, *b, *c, *d]),
            day: u16::from_be_bytes([*e, *f]),
        },
        (KindOfSlip::Receipt, [3, a, b, c, d, e, f, g, h]) => Content::Receipt {
            cents: u64::from_be_bytes([*a, *b, *c, *d, *e, *f, *g, *h]),
        },
        _ => return None,
    };
    is_in_range(&content).then_some(content)
}
