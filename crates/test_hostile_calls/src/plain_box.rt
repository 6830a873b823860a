use crate::calls::{Answer, Call, Content, KindOfSlip, Refused, Told};
use crate::plain_kinds::{Message, content_of, message_of};
use crate::plain_records::{length_of, number_of, opened, sheet, slip, write};
use crate::plain_shelf::PlainShelf;

// A box once more, by its rules, on the plain shelf.
#[derive(Drop)]
pub(crate) struct PlainBox {
    pub(crate) key: [u8; 32],
    pub(crate) sign: [u8; 8],
    pub(crate) next: u64,
    pub(crate) out: [Option<u64>; 16],
    pub(crate) shelf: PlainShelf,
}

// A slip that was made under a key.
#[derive(Clone, Copy)]
pub(crate) struct Slipped {
    pub(crate) key: [u8; 32],
    pub(crate) bytes: [u8; 48],
    pub(crate) message: Message,
}

// Layers: modes 1, shelf 2, box 3.
fn refused<T>(number: u8, layer: u8, place: Option<u32>) -> Result<T, Refused> {
    Err(Refused {
        number,
        layer,
        place,
    })
}

impl PlainBox {
    // The answer of a call; the room becomes what it should hold then. A slip opens if it is one of
    // those that were made.
    pub(crate) fn answer(&mut self, slips: &[Slipped], call: &Call, room: &mut [u8]) -> Answer {
        match call {
            Call::Draw => self.draw(),
            Call::Seal {
                number,
                place,
                label,
                message,
            } => self.seal(*number, *place, label, message, room),
            Call::Slip { number, message } => self.slip(*number, message, room),
            Call::MakeSlip { number, content } => self.make_slip(*number, content, room),
            Call::Void { number } => self.spend(*number, None),
            Call::Clear { place } => self.clear(*place),
            Call::Read { place } => self.read(*place, room),
            Call::Unslip { bytes } => self.unslip(slips, bytes, room),
            Call::ReadSlip { kind, bytes } => self.read_slip(slips, *kind, bytes, room),
            Call::NumberAt { place } => self.number_at(*place),
        }
    }

    fn draw(&mut self) -> Answer {
        if self.next > 999_999_999 {
            return refused(7, 3, None);
        }
        let number = self.next;
        for slot in self.out.iter_mut() {
            if slot.is_none() {
                *slot = Some(number);
                self.next = number.saturating_add(1);
                return Ok(Told::Drawn(number));
            }
        }
        refused(8, 3, None)
    }

    // Ends a number that is out.
    fn spend(&mut self, number: u64, place: Option<u32>) -> Answer {
        for slot in self.out.iter_mut() {
            if *slot == Some(number) {
                *slot = None;
                return Ok(Told::Done);
            }
        }
        refused(6, 3, place)
    }

    fn seal(
        &mut self,
        number: u64,
        place: u32,
        label: &[u8],
        message: &[u8],
        room: &mut [u8],
    ) -> Answer {
        if label.len() != 46 || room.len() != 1024 {
            return refused(1, 3, Some(place));
        }
        if message.len() > 928 {
            return refused(2, 3, Some(place));
        }
        if place >= self.shelf.count() {
            return refused(4, 2, Some(place));
        }
        if !self.shelf.is_open(place) {
            return refused(5, 2, Some(place));
        }
        self.spend(number, Some(place))?;
        let record = sheet(&self.key, &self.sign, number, place, label, message);
        self.shelf.put(place, &record);
        write(room, 0, &record);
        Ok(Told::Done)
    }

    fn slip(&mut self, number: u64, message: &[u8], room: &mut [u8]) -> Answer {
        if room.len() != 48 {
            return refused(1, 3, None);
        }
        if message.len() > 15 {
            return refused(2, 3, None);
        }
        self.spend(number, None)?;
        write(room, 0, &slip(&self.key, &self.sign, number, message));
        Ok(Told::Done)
    }

    fn make_slip(&mut self, number: u64, content: &Content, room: &mut [u8]) -> Answer {
        if room.len() != 48 {
            return refused(1, 3, None);
        }
        match message_of(content) {
            Some(message) => self.slip(number, message.bytes(), room),
            None => refused(15, 3, None),
        }
    }

    fn clear(&mut self, place: u32) -> Answer {
        if place >= self.shelf.count() {
            return refused(4, 2, Some(place));
        }
        if !self.shelf.is_open(place) {
            return refused(5, 2, Some(place));
        }
        self.shelf.put(place, &[0; 1024]);
        Ok(Told::Done)
    }

    fn read(&self, place: u32, room: &mut [u8]) -> Answer {
        if room.len() != 1024 {
            return refused(1, 3, Some(place));
        }
        if place >= self.shelf.count() {
            return refused(4, 2, Some(place));
        }
        let record = self.shelf.record(place);
        match opened(&self.key, place, &record) {
            Ok(opened) => {
                write(room, 0, &opened);
                Ok(Told::Found(number_of(&record), length_of(&record)))
            }
            Err(number) => {
                room.fill(0);
                refused(number, if number == 11 { 1 } else { 3 }, Some(place))
            }
        }
    }

    fn unslip(&self, slips: &[Slipped], bytes: &[u8], room: &mut [u8]) -> Answer {
        let message = self.opened_slip(slips, bytes, room)?;
        write(room, 0, &message.padded());
        Ok(Told::Message(message.bytes().len()))
    }

    fn read_slip(
        &self,
        slips: &[Slipped],
        kind: KindOfSlip,
        bytes: &[u8],
        room: &mut [u8],
    ) -> Answer {
        let message = self.opened_slip(slips, bytes, room)?;
        match content_of(kind, message.bytes()) {
            Some(content) => {
                write(room, 0, &message.padded());
                Ok(Told::Content(content))
            }
            None => {
                room.fill(0);
                refused(16, 3, None)
            }
        }
    }

    // The message of a slip; where it has none, the room becomes what it should hold then.
    fn opened_slip(
        &self,
        slips: &[Slipped],
        bytes: &[u8],
        room: &mut [u8],
    ) -> Result<Message, Refused> {
        if bytes.len() != 48 || room.len() != 15 {
            return refused(1, 3, None);
        }
        for slip in slips {
            if slip.key == self.key && slip.bytes.as_slice() == bytes {
                return Ok(slip.message);
            }
        }
        room.fill(0);
        refused(12, 1, None)
    }

    fn number_at(&self, place: u32) -> Answer {
        if place >= self.shelf.count() {
            return refused(4, 2, Some(place));
        }
        let record = self.shelf.record(place);
        let empty = record.iter().all(|b| *b == 0);
        Ok(Told::NumberAt(if empty {
            None
        } else {
            Some(number_of(&record))
        }))
    }
}
