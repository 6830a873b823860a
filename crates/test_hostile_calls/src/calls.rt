use faults::BoxFault;

// A call on a box, with what is handed in beside the room for what comes back. A number is named by
// its value.
#[derive(Drop, Debug)]
pub(crate) enum Call {
    Draw,
    Seal {
        number: u64,
        place: u32,
        label: Vec<u8>,
        message: Vec<u8>,
    },
    Slip {
        number: u64,
        message: Vec<u8>,
    },
    MakeSlip {
        number: u64,
        content: Content,
    },
    Void {
        number: u64,
    },
    Clear {
        place: u32,
    },
    Read {
        place: u32,
    },
    Unslip {
        bytes: Vec<u8>,
    },
    ReadSlip {
        kind: KindOfSlip,
        bytes: Vec<u8>,
    },
    NumberAt {
        place: u32,
    },
}

impl Call {
    // How large its room should be.
    pub(crate) fn room(&self) -> usize {
        match self {
            Call::Seal { .. } | Call::Read { .. } => 1024,
            Call::Slip { .. } | Call::MakeSlip { .. } => 48,
            Call::Unslip { .. } | Call::ReadSlip { .. } => 15,
            Call::Draw | Call::Void { .. } | Call::Clear { .. } | Call::NumberAt { .. } => 0,
        }
    }
}

#[derive(Clone, Copy, PartialEq, Eq, Debug)]
pub(crate) enum KindOfSlip {
    Licence,
    Loan,
    Receipt,
}

// What a slip of a kind says, also outside its range.
#[derive(Clone, Copy, PartialEq, Eq, Debug)]
pub(crate) enum Content {
    Licence { design: u32, copies: u16 },
    Loan { design: u32, day: u16 },
    Receipt { cents: u64 },
}

impl Content {
    pub(crate) fn kind(&self) -> KindOfSlip {
        match self {
            Content::Licence { .. } => KindOfSlip::Licence,
            Content::Loan { .. } => KindOfSlip::Loan,
            Content::Receipt { .. } => KindOfSlip::Receipt,
        }
    }
}

// The answer of a call that is done.
#[derive(Clone, Copy, PartialEq, Eq, Debug)]
pub(crate) enum Told {
    Done,
    Drawn(u64),
    Found(u64, usize),
    Message(usize),
    Content(Content),
    NumberAt(Option<u64>),
}

// A refusal, by what is fixed for its cause, and its place.
#[derive(Clone, Copy, PartialEq, Eq, Debug)]
pub(crate) struct Refused {
    pub(crate) number: u8,
    pub(crate) layer: u8,
    pub(crate) place: Option<u32>,
}

impl Refused {
    pub(crate) fn of(fault: BoxFault) -> Refused {
        Refused {
            number: fault.number(),
            layer: fault.layer(),
            place: fault.place,
        }
    }
}

pub(crate) type Answer = Result<Told, Refused>;
