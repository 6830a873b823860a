use crate::plain_cipher::encrypted;

// CTR-Cascade and Short once more, on the plain cipher.

// The nonce, 0x80 and zeros, with the counter XORed into the end.
fn counter_block(nonce: &[u8; 16], counter: u32) -> [u8; 32] {
    let mut block = padded(nonce);
    for (b, c) in block[28..].iter_mut().zip(counter.to_be_bytes()) {
        *b ^= c;
    }
    block
}

// At most 31 bytes, 0x80, and zeros.
fn padded(bytes: &[u8]) -> [u8; 32] {
    let mut block = [0; 32];
    for (b, from) in block.iter_mut().zip(bytes.iter().chain(&[0x80])) {
        *b = *from;
    }
    block
}

fn xor(a: &[u8; 32], b: &[u8; 32]) -> [u8; 32] {
    let mut sum = *a;
    for (x, y) in sum.iter_mut().zip(b) {
        *x ^= *y;
    }
    sum
}

// A text of at most 928 bytes after the keystream is added to it, and zeros.
pub(crate) fn masked(key: &[u8; 32], nonce: &[u8; 16], text: &[u8]) -> [u8; 928] {
    let mut masked = [0; 928];
    let mut counter = 0u32;
    for (room, part) in masked.chunks_mut(32).zip(text.chunks(32)) {
        counter = counter.saturating_add(1);
        let stream = encrypted(key, 1, &counter_block(nonce, counter));
        for ((b, from), s) in room.iter_mut().zip(part).zip(stream) {
            *b = *from ^ s;
        }
    }
    masked
}

pub(crate) fn tag(
    key: &[u8; 32],
    nonce: &[u8; 16],
    associated: &[u8],
    ciphertext: &[u8],
) -> [u8; 32] {
    let start = counter_block(nonce, 0);
    let start = xor(&start, &encrypted(key, 2, &start));
    chained(&chained(&start, 2, associated), 4, ciphertext)
}

// Full blocks by a separator, and the tail by the next one.
fn chained(start: &[u8; 32], separator: u8, bytes: &[u8]) -> [u8; 32] {
    let mut value = *start;
    let mut blocks = bytes.chunks_exact(32);
    for block in blocks.by_ref() {
        let block = padded(block);
        value = xor(&block, &encrypted(&value, separator, &block));
    }
    let tail = padded(blocks.remainder());
    xor(
        &tail,
        &encrypted(&value, separator.saturating_add(1), &tail),
    )
}

// The block of Short.
pub(crate) fn short(key: &[u8; 32], nonce: &[u8; 16], message: &[u8]) -> [u8; 32] {
    let mut block = [0; 32];
    let from = nonce.iter().chain(message).chain(&[0x80]);
    for (b, from) in block.iter_mut().zip(from) {
        *b = *from;
    }
    encrypted(key, 6, &block)
}
