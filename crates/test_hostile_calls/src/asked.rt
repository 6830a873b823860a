use crate::calls::{Call, Content, KindOfSlip, Told};
use archive_box::{ArchiveBox, Number, Refusal, Viewing};
use box_desk::Hand;
use cipher::TwoWayCipher;
use faults::BoxFault;
use shelf::Shelf;
use std::alloc::AllocError;
use trade_slips::{Licence, Licences, Loan, Loans, Receipt, Receipts};

// The answer of the box under test. A call with a number takes the first in hand, which comes back
// where it is refused.
pub(crate) fn answer<C: TwoWayCipher, S: Shelf>(
    asked: &mut ArchiveBox<C, S>,
    hand: &mut Hand,
    call: &Call,
    room: &mut [u8],
) -> Result<Result<Told, BoxFault>, AllocError> {
    Ok(match call {
        Call::Draw => match asked.draw() {
            Ok(number) => {
                let value = number.value();
                hand.put(asked, number)?;
                Ok(Told::Drawn(value))
            }
            Err(fault) => Err(fault),
        },
        Call::Clear { place } => asked.clear(*place).map(|()| Told::Done),
        Call::Read { place } => asked
            .read(*place, room)
            .map(|found| Told::Found(found.number, found.length)),
        Call::Unslip { bytes } => asked.unslip(bytes, room).map(Told::Message),
        Call::ReadSlip { kind, bytes } => read_slip(asked, *kind, bytes, room).map(Told::Content),
        Call::NumberAt { place } => asked.number_at(*place).map(Told::NumberAt),
        Call::Seal { .. } | Call::Slip { .. } | Call::MakeSlip { .. } | Call::Void { .. } => {
            match hand.take_first() {
                Some(number) => return spent(asked, hand, number, call, room),
                None => Ok(Told::Done),
            }
        }
    })
}

// The answer of a call that spends a number.
fn spent<C: TwoWayCipher, S: Shelf>(
    asked: &mut ArchiveBox<C, S>,
    hand: &mut Hand,
    number: Number,
    call: &Call,
    room: &mut [u8],
) -> Result<Result<Told, BoxFault>, AllocError> {
    let told = match call {
        Call::Seal {
            number: _,
            place,
            label,
            message,
        } => asked.seal(number, *place, label, message, room),
        Call::Slip { number: _, message } => asked.slip(number, message, room),
        Call::MakeSlip { number: _, content } => make_slip(asked, number, content, room),
        _ => {
            return Ok(asked.void(number).map(|()| Told::Done));
        }
    };
    match told {
        Ok(()) => Ok(Ok(Told::Done)),
        Err(Refusal { fault, number }) => {
            hand.put(asked, number)?;
            Ok(Err(fault))
        }
    }
}

fn make_slip<C: TwoWayCipher, S: Shelf>(
    asked: &mut ArchiveBox<C, S>,
    number: Number,
    content: &Content,
    room: &mut [u8],
) -> Result<(), Refusal> {
    match *content {
        Content::Licence { design, copies } => {
            asked.make_slip::<Licences>(number, &Licence { design, copies }, room)
        }
        Content::Loan { design, day } => {
            asked.make_slip::<Loans>(number, &Loan { design, day }, room)
        }
        Content::Receipt { cents } => {
            asked.make_slip::<Receipts>(number, &Receipt { cents }, room)
        }
    }
}

fn read_slip<C: TwoWayCipher, S: Shelf>(
    asked: &ArchiveBox<C, S>,
    kind: KindOfSlip,
    bytes: &[u8],
    room: &mut [u8],
) -> Result<Content, BoxFault> {
    Ok(match kind {
        KindOfSlip::Licence => {
            let Licence { design, copies } = asked.read_slip::<Licences>(bytes, room)?;
            Content::Licence { design, copies }
        }
        KindOfSlip::Loan => {
            let Loan { design, day } = asked.read_slip::<Loans>(bytes, room)?;
            Content::Loan { design, day }
        }
        KindOfSlip::Receipt => {
            let Receipt { cents } = asked.read_slip::<Receipts>(bytes, room)?;
            Content::Receipt { cents }
        }
    })
}
