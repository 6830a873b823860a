use crate::plain_modes::{masked, short, tag};

// Sheets and slips once more, as bytes.

fn nonce(sign: &[u8; 8], number: u64) -> [u8; 16] {
    let mut nonce = [0; 16];
    write(&mut nonce, 0, sign);
    write(&mut nonce, 8, &number.to_be_bytes());
    nonce
}

// Writes as many of the bytes as there is room for.
pub(crate) fn write(room: &mut [u8], from: usize, bytes: &[u8]) {
    for (b, byte) in room.iter_mut().skip(from).zip(bytes) {
        *b = *byte;
    }
}

// The associated data: the place, and bytes 16 to 63.
fn associated(place: u32, record: &[u8; 1024]) -> [u8; 52] {
    let mut data = [0; 52];
    write(&mut data, 0, &place.to_be_bytes());
    write(&mut data, 4, &record[16..64]);
    data
}

// A label has 46 bytes and a message at most 928.
pub(crate) fn sheet(
    key: &[u8; 32],
    sign: &[u8; 8],
    number: u64,
    place: u32,
    label: &[u8],
    message: &[u8],
) -> [u8; 1024] {
    let nonce = nonce(sign, number);
    let mut record = [0; 1024];
    write(&mut record, 0, &nonce);
    write(&mut record, 16, label);
    write(
        &mut record,
        62,
        &((message.len() & 0xFFFF) as u16).to_be_bytes(),
    );
    let text = masked(key, &nonce, message);
    write(&mut record, 64, &text);
    let text = text.get(..message.len()).unwrap_or_default();
    let tag = tag(key, &nonce, &associated(place, &record), text);
    write(&mut record, 992, &tag);
    record
}

// What a record tells: the number that it was sealed under, and the length of its message.
pub(crate) fn number_of(record: &[u8; 1024]) -> u64 {
    record[8..16]
        .iter()
        .fold(0, |n, b| (n << 8) | u64::from(*b))
}

pub(crate) fn length_of(record: &[u8; 1024]) -> usize {
    256 * usize::from(record[62]) + usize::from(record[63])
}

// A record with its message in place of the ciphertext, or the number of what is wrong with it.
pub(crate) fn opened(key: &[u8; 32], place: u32, record: &[u8; 1024]) -> Result<[u8; 1024], u8> {
    if record.iter().all(|b| *b == 0) {
        return Err(9);
    }
    let n = length_of(record);
    if n > 928 || record[64 + n..992].iter().any(|b| *b != 0) {
        return Err(10);
    }
    let mut nonce = [0; 16];
    write(&mut nonce, 0, record);
    let tag = tag(key, &nonce, &associated(place, record), &record[64..64 + n]);
    if record[992..] != tag[..] {
        return Err(11);
    }
    let mut opened = *record;
    write(&mut opened, 64, &masked(key, &nonce, &record[64..64 + n]));
    Ok(opened)
}

// A message has at most 15 bytes.
pub(crate) fn slip(key: &[u8; 32], sign: &[u8; 8], number: u64, message: &[u8]) -> [u8; 48] {
    let nonce = nonce(sign, number);
    let mut slip = [0; 48];
    write(&mut slip, 0, &nonce);
    write(&mut slip, 16, &short(key, &nonce, message));
    slip
}
