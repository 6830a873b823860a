ghost use Rattle.std.specs.Prelude.{◌≡◌, ◌<◌, ◌++◌, ◌-◌, ℕ, List, length, replicate};
ghost use Rattle.std.specs.Prelude.{MatchOption, OnOk};
ghost use Rattle.box_model.specs.Calls.{Slips, ReadsSlip};
ghost use Rattle.archive_box.specs.Boxes.{Turns, Tells};
ghost use Rattle.box_desk.specs.Hands.{Spent};
ghost use Rattle.box_desk.specs.Slips.{MakesSlip, ReadsDigits};

use crate::answers::Answer;
use crate::hand::Hand;
use crate::image::Image;
use crate::problems::Problem;
use archive_box::{ArchiveBox, Number, Refusal};
use cipher::TwoWayCipher;
use files::write_whole;
use shelf::Shelf;
use slip_kinds::SlipKind;
use std::alloc::Global;

pub(crate) fn draw<C: TwoWayCipher, S: Shelf>(
    asked: &mut ArchiveBox<C, S>,
    hand: &mut Hand,
) -> Result<Answer, Problem> {
    let number = asked.draw()?;
    let value = number.value();
    hand.put(asked, number)?;
    Ok(Answer::Drawn(value))
}

// The answer of a call that spends a number or hands it back.
fn spent<C: TwoWayCipher, S: Shelf>(
    asked: &mut ArchiveBox<C, S>,
    hand: &mut Hand,
    answer: Result<Answer, Refusal>,
) -> Result<Answer, Problem>
    ensures hand { Spent answer hand.old.numbers.items hand.new.numbers.items result }
    ensures done { OnOk answer (asked.new ≡ asked.old) }
{
    match answer {
        Ok(done) => Ok(done),
        Err(Refusal { fault, number }) => {
            hand.put(asked, number)?;
            Err(fault.into())
        }
    }
}

pub(crate) fn seal<C: TwoWayCipher, S: Shelf>(
    asked: &mut ArchiveBox<C, S>,
    hand: &mut Hand,
    number: Number,
    place: u32,
    label: &[u8],
    message: &[u8],
) -> Result<Answer, Problem> {
    let mut record = [0; 1024];
    let sealed = match padded(label) {
        Some(label) => asked.seal(number, place, &label, message, &mut record),
        None => asked.seal(number, place, label, message, &mut record),
    };
    spent(asked, hand, sealed.map(|()| Answer::Done))
}

// A label with zero bytes up to 46; none where it has more.
fn padded(label: &[u8]) -> Option<[u8; 46]>
    ensures { MatchOption result (46 < length label.now)
        (λ l. l ≡ label.now ++ replicate (46 - length label.now) 0) }
{
    if label.len() > 46 {
        return None;
    }
    let mut room = [0; 46];
    octets::paste(&mut room, 0, label);
    Some(room)
}

pub(crate) fn slip<C: TwoWayCipher, S: Shelf>(
    asked: &mut ArchiveBox<C, S>,
    hand: &mut Hand,
    number: Number,
    message: &[u8],
) -> Result<Answer, Problem> {
    let mut bytes = [0; 48];
    let made = asked.slip(number, message, &mut bytes);
    spent(asked, hand, made.map(|()| Answer::Slip(bytes)))
}

pub(crate) fn unslip<C: TwoWayCipher, S: Shelf>(
    asked: &ArchiveBox<C, S>,
    heap: Global,
    digits: &str,
) -> Result<Answer, Problem> {
    let slip = hex::decode(heap, digits)?;
    let mut bytes = [0; 15];
    let length = asked.unslip(&slip, &mut bytes)?;
    Ok(Answer::Message { bytes, length })
}

// Makes a slip of a kind.
pub(crate) fn make_slip<K: SlipKind, C: TwoWayCipher, S: Shelf>(
    asked: &mut ArchiveBox<C, S>,
    hand: &mut Hand,
    number: Number,
    content: &K::Content,
) -> Result<Answer, Problem>
    ensures { let none = replicate 48 0 in
        MakesSlip
        (λ bytes. Turns C.Cipher.forward C.TwoWayCipher.back S.Shelf.meaning
        (λ made s. Slips made s number.value (K.writes content.now) none (Ok tt) bytes)
        asked.old asked.new)
        (λ fault. Tells C.Cipher.forward C.TwoWayCipher.back S.Shelf.meaning
        (λ made s. Slips made s number.value (K.writes content.now) none (Err fault) none s)
        asked.old)
        number hand.old.numbers.items hand.new.numbers.items result }
{
    let mut bytes = [0; 48];
    match asked.make_slip::<K>(number, content, &mut bytes) {
        Ok(()) => Ok(Answer::Slip(bytes)),
        Err(refusal) => spent(asked, hand, Err(refusal)),
    }
}

// What a slip of a kind says.
pub(crate) fn read_slip<K: SlipKind, C: TwoWayCipher, S: Shelf>(
    asked: &ArchiveBox<C, S>,
    heap: Global,
    digits: &str,
) -> Result<K::Content, Problem>
    ensures { ReadsDigits
        (λ bytes answer. Tells C.Cipher.forward C.TwoWayCipher.back S.Shelf.meaning
        (λ made s. (buffer : List ℕ)
        × ReadsSlip made s K.writes bytes (replicate 15 0) answer buffer) asked.now)
        digits.now result }
{
    let slip = hex::decode(heap, digits)?;
    Ok(asked.read_slip::<K>(&slip, &mut [0; 15])?)
}

pub(crate) fn save<C: TwoWayCipher, S: Image>(
    asked: &ArchiveBox<C, S>,
    rt: &HostRuntime,
    file: &str,
) -> Result<Answer, Problem> {
    write_whole(rt, file, asked.shelf().image()).map_err(Problem::Unwritten)?;
    Ok(Answer::Done)
}
