use crate::answers::Answer;
use crate::asks;
use crate::hand::Hand;
use crate::image::Image;
use crate::problems::Problem;
use archive_box::{ArchiveBox, Number};
use cipher::TwoWayCipher;
use saturnin_words::WordForm;
use script::{BoxCall, TradeCall};
use shelf::Shelf;
use std::alloc::Global;
use trade_slips::{Licences, Loans, Receipts};
use tray::Tray;

/// Who answers the calls on a box.
pub(crate) trait Worker {
    /// Numbers come into the hand and leave it.
    fn answer(
        &mut self,
        rt: &HostRuntime,
        call: BoxCall,
        hand: &mut Hand,
    ) -> Result<Answer, Problem>;

    /// Leaves the sheet of the place in the record buffer.
    fn read(&self, place: u32, record: &mut [u8]) -> Result<(), Problem>;

    /// Ends a number.
    fn end(&mut self, number: Number) -> Result<(), Problem>;
}

/// Who answers before a box is made: it has one of its own only to end numbers with.
#[derive(Drop)]
pub(crate) struct NoBox<'a> {
    pub(crate) ender: ArchiveBox<WordForm, Tray<'a>>,
}

impl Worker for NoBox<'_> {
    fn answer(
        &mut self,
        _rt: &HostRuntime,
        _call: BoxCall,
        _hand: &mut Hand,
    ) -> Result<Answer, Problem> {
        Err(Problem::NoBox)
    }

    fn read(&self, _place: u32, _record: &mut [u8]) -> Result<(), Problem> {
        Err(Problem::NoBox)
    }

    fn end(&mut self, number: Number) -> Result<(), Problem> {
        Ok(self.ender.void(number)?)
    }
}

impl<C: TwoWayCipher, S: Image> Worker for ArchiveBox<C, S> {
    fn answer(
        &mut self,
        rt: &HostRuntime,
        call: BoxCall,
        hand: &mut Hand,
    ) -> Result<Answer, Problem> {
        match call {
            BoxCall::Draw => asks::draw(self, hand),
            BoxCall::Seal {
                number,
                place,
                label,
                message,
            } => {
                let message = message.bytes(rt.alloc())?;
                let number = hand.take(number)?;
                asks::seal(self, hand, number, place, label, &message)
            }
            BoxCall::Slip { number, message } => {
                let message = message.bytes(rt.alloc())?;
                let number = hand.take(number)?;
                asks::slip(self, hand, number, &message)
            }
            BoxCall::Void { number } => {
                let number = hand.take(number)?;
                self.void(number)?;
                Ok(Answer::Done)
            }
            BoxCall::Clear { place } => {
                self.clear(place)?;
                Ok(Answer::Done)
            }
            BoxCall::Unslip { digits } => asks::unslip(self, rt.alloc(), digits),
            BoxCall::Number { place } => Ok(Answer::NumberAt(self.number_at(place)?)),
            BoxCall::Save { file } => asks::save(self, rt, file),
            BoxCall::Trade(call) => answer_trade(self, rt.alloc(), call, hand),
        }
    }

    fn read(&self, place: u32, record: &mut [u8]) -> Result<(), Problem> {
        self.read(place, record)?;
        Ok(())
    }

    fn end(&mut self, number: Number) -> Result<(), Problem> {
        Ok(self.void(number)?)
    }
}

// Makes or reads a slip of a kind.
fn answer_trade<C: TwoWayCipher, S: Shelf>(
    asked: &mut ArchiveBox<C, S>,
    heap: Global,
    call: TradeCall,
    hand: &mut Hand,
) -> Result<Answer, Problem> {
    match call {
        TradeCall::Licence { number, licence } => {
            let number = hand.take(number)?;
            asks::make_slip::<Licences, C, S>(asked, hand, number, &licence)
        }
        TradeCall::Loan { number, loan } => {
            let number = hand.take(number)?;
            asks::make_slip::<Loans, C, S>(asked, hand, number, &loan)
        }
        TradeCall::Receipt { number, receipt } => {
            let number = hand.take(number)?;
            asks::make_slip::<Receipts, C, S>(asked, hand, number, &receipt)
        }
        TradeCall::ReadLicence { digits } => {
            let licence = asks::read_slip::<Licences, C, S>(asked, heap, digits)?;
            Ok(Answer::Licence(licence))
        }
        TradeCall::ReadLoan { digits } => {
            let loan = asks::read_slip::<Loans, C, S>(asked, heap, digits)?;
            Ok(Answer::Loan(loan))
        }
        TradeCall::ReadReceipt { digits } => {
            let receipt = asks::read_slip::<Receipts, C, S>(asked, heap, digits)?;
            Ok(Answer::Receipt(receipt))
        }
    }
}
