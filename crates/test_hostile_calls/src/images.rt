use crate::dice::Dice;
use crate::plain_records::{sheet, write};
use crate::plain_shelf::{Kind, PlainShelf};
use std::alloc::{AllocError, Global};

// Images of shelves, mostly damaged ones.

pub(crate) fn shelf(
    dice: &mut Dice,
    heap: Global,
    keys: &[[u8; 32]; 2],
    sign: &[u8; 8],
) -> Result<PlainShelf, AllocError> {
    if dice.one_in(2) {
        tray(dice, heap, keys, sign)
    } else {
        plate(dice, heap, keys, sign)
    }
}

fn tray(
    dice: &mut Dice,
    heap: Global,
    keys: &[[u8; 32]; 2],
    sign: &[u8; 8],
) -> Result<PlainShelf, AllocError> {
    let size = (1024 * dice.below(6)).saturating_add(spare(dice));
    let mut image = dice.bytes(heap, size)?;
    let mut place = 0u32;
    for room in image.chunks_exact_mut(1024) {
        write(room, 0, &record(dice, keys, sign, place));
        place = place.saturating_add(1);
    }
    Ok(PlainShelf {
        kind: Kind::Tray,
        image,
    })
}

fn plate(
    dice: &mut Dice,
    heap: Global,
    keys: &[[u8; 32]; 2],
    sign: &[u8; 8],
) -> Result<PlainShelf, AllocError> {
    let places = match dice.below(30) {
        0 => 0,
        1 => 4097,
        2 => 4096,
        _ => 1 + dice.below(5),
    };
    let size = (1026 * dice.below(40)).saturating_add(spare(dice));
    let mut image = dice.bytes(heap, size)?;
    let mut left = dice.below(20);
    for cell in image.chunks_exact_mut(1026) {
        let place = dice.below(places);
        let mark = if dice.one_in(200) {
            places + dice.below(2)
        } else if left == 0 || dice.one_in(200) {
            0
        } else {
            place.saturating_add(1)
        };
        left = left.saturating_sub(1);
        write(cell, 0, &((mark & 0xFFFF) as u16).to_be_bytes());
        write(cell, 2, &record(dice, keys, sign, place as u32));
    }
    Ok(PlainShelf {
        kind: Kind::Plate(places as u32),
        image,
    })
}

fn spare(dice: &mut Dice) -> usize {
    if dice.one_in(2) { 0 } else { dice.below(1024) }
}

// A record for a place: none, a right one, or one with something wrong.
fn record(dice: &mut Dice, keys: &[[u8; 32]; 2], sign: &[u8; 8], place: u32) -> [u8; 1024] {
    let mut label = [0; 46];
    let mut message = [0; 928];
    for b in label.iter_mut().chain(message.iter_mut()) {
        *b = dice.byte();
    }
    let length = dice.length_up_to(928).min(928);
    let number = 1 + dice.below(1000) as u64;
    let mut right = |key, place| sheet(key, sign, number, place, &label, &message[..length]);
    let mut record = right(&keys[0], place);
    match dice.below(12) {
        0 | 1 => record = [0; 1024],
        2 => record = right(&keys[0], place ^ 1),
        3 => record = right(&keys[1], place),
        4 | 5 => {
            let at = dice.below(1024);
            write(&mut record, at, &[dice.byte()]);
        }
        6 => write(&mut record, 62, &[dice.byte(), dice.byte()]),
        7 => write(&mut record, 64 + dice.below(928), &[dice.byte()]),
        8 => {
            for b in record.iter_mut() {
                *b = dice.byte();
            }
        }
        _ => {}
    }
    record
}

// The image of a box that is done, as somebody else may hand it on: as it is, with a byte changed,
// cut short, or as the image of another kind of shelf.
pub(crate) fn handed_on(dice: &mut Dice, mut shelf: PlainShelf) -> PlainShelf {
    match dice.below(12) {
        0 => {
            let at = dice.below(shelf.image.len());
            write(&mut shelf.image, at, &[dice.byte()]);
        }
        1 => {
            let length = dice.below(shelf.image.len());
            shelf.image.truncate(length);
        }
        2 => shelf.kind = Kind::Tray,
        3 => shelf.kind = Kind::Plate(1 + dice.below(5) as u32),
        _ => {}
    }
    shelf
}
