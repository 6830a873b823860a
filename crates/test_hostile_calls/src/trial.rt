use crate::asked::answer;
use crate::calls::{Call, Refused};
use crate::dice::Dice;
use crate::plain_box::{PlainBox, Slipped};
use crate::plain_kinds::{Message, spelt};
use crate::plain_shelf::{Kind, PlainShelf};
use crate::tally::Tally;
use crate::viewed::viewing_is_right;
use crate::{contents, images};
use anyhow::anyhow;
use archive_box::ArchiveBox;
use box_desk::{Hand, Image};
use cipher::TwoWayCipher;
use plate::Plate;
use saturnin_cube::CubeForm;
use saturnin_words::WordForm;
use shelf::Shelf;
use std::alloc::AllocError;
use tray::Tray;

// Boxes under test, one after another, each beside a plain one.
pub(crate) struct Trial<'r> {
    rt: &'r HostRuntime,
    dice: Dice,
    keys: [[u8; 32]; 2],
    signs: [[u8; 8]; 2],
    hand: Hand,
    slips: Vec<Slipped>,
    tally: Tally,
}

impl<'r> Trial<'r> {
    pub(crate) fn new(rt: &'r HostRuntime, seed: u64) -> Trial<'r> {
        let mut dice = Dice::new(seed);
        let mut keys = [[0; 32]; 2];
        let mut signs = [[0; 8]; 2];
        for b in keys.iter_mut().flatten().chain(signs.iter_mut().flatten()) {
            *b = dice.byte();
        }
        Trial {
            rt,
            dice,
            keys,
            signs,
            hand: Hand::new(rt.alloc()),
            slips: Vec::new(rt.alloc()),
            tally: Tally::new(),
        }
    }

    // So many boxes with so many calls each.
    pub(crate) fn run(&mut self, boxes: u64, calls: u64) -> anyhow::Result<()> {
        let mut shelf = images::shelf(&mut self.dice, self.rt.alloc(), &self.keys, &self.signs[0])?;
        for _ in 0..boxes {
            shelf = self.work_shelf(shelf, calls)?;
            shelf = if self.dice.one_in(3) {
                images::shelf(&mut self.dice, self.rt.alloc(), &self.keys, &self.signs[0])?
            } else {
                images::handed_on(&mut self.dice, shelf)
            };
        }
        self.tally.print(self.rt)?;
        Ok(())
    }

    fn work_shelf(&mut self, shelf: PlainShelf, calls: u64) -> anyhow::Result<PlainShelf> {
        let mut image = shelf.image.clone()?;
        match shelf.kind {
            Kind::Tray => self.work_form(Tray::new(&mut image), shelf, calls),
            Kind::Plate(places) => {
                if Plate::check(&image, places).is_ok() != (shelf.count() > 0) {
                    return Err(anyhow!("a plate is fit or unfit"));
                }
                self.work_form(Plate::new(&mut image, places), shelf, calls)
            }
        }
    }

    fn work_form<S: Image + Drop>(
        &mut self,
        real: S,
        shelf: PlainShelf,
        calls: u64,
    ) -> anyhow::Result<PlainShelf> {
        // Mostly the first key, so that a later box opens what an earlier one sealed.
        let key = self.keys[self.dice.below(8) / 7 % 2];
        let sign = self.signs[self.dice.below(2) % 2];
        let first = match self.dice.below(8) {
            0 => 0,
            1 => 999_999_990 + self.dice.below(12) as u64,
            2 => u64::MAX,
            _ => 1 + self.dice.below(40) as u64,
        };
        let plain = PlainBox {
            key,
            sign,
            next: first.max(1),
            out: [None; 16],
            shelf,
        };
        if self.dice.one_in(2) {
            self.work(
                ArchiveBox::new(CubeForm, real, key, sign, first),
                plain,
                calls,
            )
        } else {
            self.work(
                ArchiveBox::new(WordForm, real, key, sign, first),
                plain,
                calls,
            )
        }
    }

    // So many calls on a box and on a plain one, with a box beside it that numbers come from, too.
    fn work<C: TwoWayCipher + Drop, S: Image + Drop>(
        &mut self,
        mut asked: ArchiveBox<C, S>,
        mut plain: PlainBox,
        calls: u64,
    ) -> anyhow::Result<PlainShelf> {
        let mut nothing = [];
        let shelf = Tray::new(&mut nothing);
        let near = plain.next.saturating_sub(4);
        let mut other = ArchiveBox::new(WordForm, shelf, plain.key, plain.sign, near);
        let greedy = self.dice.one_in(6);
        for _ in 0..calls {
            self.turn_hand(&mut other)?;
            let call = if greedy && self.dice.one_in(2) {
                Call::Draw
            } else {
                self.call(&plain)?
            };
            self.compare(&mut asked, &mut plain, &call)?;
        }
        for _ in 0..self.dice.below(40) {
            if let Some(number) = self.hand.take_first() {
                let _ = other.void(number);
            }
        }
        Ok(plain.shelf)
    }

    // Now and then a number of another box, and the next number in hand.
    fn turn_hand<S: Shelf>(
        &mut self,
        other: &mut ArchiveBox<WordForm, S>,
    ) -> Result<(), AllocError> {
        if self.dice.one_in(40)
            && let Ok(foreign) = other.draw()
        {
            self.hand.put(other, foreign)?;
        }
        if self.dice.one_in(2)
            && let Some(number) = self.hand.take_first()
        {
            self.hand.put(other, number)?;
        }
        Ok(())
    }

    // One call on both boxes, which must give the same answer, and leave the same room and the same
    // image.
    fn compare<C: TwoWayCipher, S: Image>(
        &mut self,
        asked: &mut ArchiveBox<C, S>,
        plain: &mut PlainBox,
        call: &Call,
    ) -> anyhow::Result<()> {
        let size = self.dice.length(call.room());
        let mut room = self.dice.bytes(self.rt.alloc(), size)?;
        let mut wanted_room = room.clone()?;
        let told = answer(asked, &mut self.hand, call, &mut room)?;
        self.tally.note(call, &told);
        let told = told.map_err(Refused::of);
        let wanted = plain.answer(&self.slips, call, &mut wanted_room);
        if told != wanted
            || room != wanted_room
            || asked.shelf().image() != plain.shelf.image.as_slice()
            || !viewing_is_right(&mut room)
        {
            println!(self.rt; "{call:?}: told {told:?}, wanted {wanted:?}")?;
            return Err(anyhow!("a box differs from the plain one"));
        }
        if told.is_ok() {
            self.note_slip(plain, call, &wanted_room)?;
        }
        Ok(())
    }

    // Remembers a slip that was made.
    fn note_slip(&mut self, plain: &PlainBox, call: &Call, room: &[u8]) -> Result<(), AllocError> {
        let message = match call {
            Call::Slip { number: _, message } => Message::of(message),
            Call::MakeSlip { number: _, content } => spelt(content),
            _ => return Ok(()),
        };
        let Some(bytes) = room.as_array() else {
            return Ok(());
        };
        if self.slips.len() >= 50 {
            self.slips.clear();
        }
        self.slips.push(Slipped {
            key: plain.key,
            bytes: *bytes,
            message,
        })?;
        Ok(())
    }

    // Any call at all.
    fn call(&mut self, plain: &PlainBox) -> Result<Call, AllocError> {
        let place = self.place(&plain.shelf);
        Ok(match (self.dice.below(24), self.hand.first()) {
            (0..=9, Some(number)) => self.spending_call(number, place)?,
            (10..=12, _) => Call::Read { place },
            (13, _) => Call::NumberAt { place },
            (14, _) => Call::Clear { place },
            (15..=20, _) => self.opening_call()?,
            _ => Call::Draw,
        })
    }

    // Mostly one that the shelf has.
    fn place(&mut self, shelf: &PlainShelf) -> u32 {
        match self.dice.below(16) {
            0 => (self.dice.next() >> 32) as u32,
            1 => u32::MAX,
            2 => shelf.count(),
            _ => self.dice.below(shelf.count().min(6) as usize) as u32,
        }
    }

    // A call that takes a number.
    fn spending_call(&mut self, number: u64, place: u32) -> Result<Call, AllocError> {
        let heap = self.rt.alloc();
        let dice = &mut self.dice;
        Ok(match dice.below(10) {
            0..=4 => {
                let label = dice.length(46);
                let message = dice.length_up_to(928);
                Call::Seal {
                    number,
                    place,
                    label: dice.bytes(heap, label)?,
                    message: dice.bytes(heap, message)?,
                }
            }
            5 | 6 => Call::Slip {
                number,
                message: contents::message(dice, heap)?,
            },
            7 | 8 => Call::MakeSlip {
                number,
                content: contents::content(dice),
            },
            _ => Call::Void { number },
        })
    }

    // A call that opens a slip.
    fn opening_call(&mut self) -> Result<Call, AllocError> {
        let slip = self.made_slip();
        let bytes = self.bytes_of(slip)?;
        Ok(if self.dice.one_in(3) {
            Call::Unslip { bytes }
        } else {
            let kind = contents::kind_for(&mut self.dice, slip);
            Call::ReadSlip { kind, bytes }
        })
    }

    fn made_slip(&mut self) -> Option<Slipped> {
        let at = self.dice.below(self.slips.len());
        self.slips.get(at).copied()
    }

    // The bytes of a slip, now and then with one changed; any bytes where there is no slip.
    fn bytes_of(&mut self, slip: Option<Slipped>) -> Result<Vec<u8>, AllocError> {
        let heap = self.rt.alloc();
        let size = self.dice.length(48);
        let mut bytes = self.dice.bytes(heap, size)?;
        if let Some(slip) = slip {
            crate::plain_records::write(&mut bytes, 0, &slip.bytes);
        }
        if self.dice.one_in(3) {
            let at = self.dice.below(48);
            crate::plain_records::write(&mut bytes, at, &[self.dice.byte()]);
        }
        Ok(bytes)
    }

    // Ends the numbers in hand.
    pub(crate) fn end(self) {
        let Trial {
            rt: _,
            dice: _,
            keys: _,
            signs: _,
            hand,
            slips: _,
            tally: _,
        } = self;
        let mut nothing = [];
        hand.end(&mut ArchiveBox::new(WordForm, Tray::new(&mut nothing), [0; 32], [0; 8], 1));
    }
}
