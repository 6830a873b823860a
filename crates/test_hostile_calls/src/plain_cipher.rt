// Saturnin with 10 super-rounds, once more and as plainly as can be: a block is 64 nibbles, and
// nibble (x, y, z) has index y + 4x + 16z. Nothing here is used but by this test, and it uses
// nothing of the code under test.

const SIGMA_0: [u8; 16] = [0, 6, 14, 1, 15, 4, 7, 13, 9, 8, 12, 5, 2, 10, 3, 11];

const SIGMA_1: [u8; 16] = [0, 9, 13, 2, 15, 1, 11, 7, 6, 4, 5, 3, 8, 12, 10, 14];

pub(crate) fn encrypted(key: &[u8; 32], separator: u8, block: &[u8; 32]) -> [u8; 32] {
    let key = nibbles(key);
    let mut state = nibbles(block);
    add(&mut state, &key, 0);
    let mut constants = [0xFE00 + 16 * 10 + u32::from(separator); 2];
    for round in 0..20 {
        substitute(&mut state);
        mix_columns(&mut state, round);
        if round % 2 == 1 {
            for _ in 0..16 {
                constants = [
                    clocked(constants[0], 0x1002D),
                    clocked(constants[1], 0x10053),
                ];
            }
            add_constants(&mut state, constants);
            add(&mut state, &key, if round % 4 == 1 { 20 } else { 0 });
        }
    }
    bytes(&state)
}

// Bit k of the nibble with index j + 4b is bit b of register 4j + k; registers stand low byte
// first.
fn nibbles(bytes: &[u8; 32]) -> [u8; 64] {
    let mut state = [0; 64];
    for b in 0..16 {
        for j in 0..4 {
            let bit = |k: usize| (bytes[2 * (4 * j + k) + b / 8] >> (b % 8)) & 1;
            state[j + 4 * b] = bit(0) | (bit(1) << 1) | (bit(2) << 2) | (bit(3) << 3);
        }
    }
    state
}

fn bytes(state: &[u8; 64]) -> [u8; 32] {
    let mut bytes = [0; 32];
    for b in 0..16 {
        for j in 0..4 {
            for k in 0..4 {
                bytes[2 * (4 * j + k) + b / 8] |= ((state[j + 4 * b] >> k) & 1) << (b % 8);
            }
        }
    }
    bytes
}

// Nibble i receives nibble i + turn of the key.
fn add(state: &mut [u8; 64], key: &[u8; 64], turn: usize) {
    for i in 0..64 {
        state[i] ^= key[(i + turn % 64) % 64];
    }
}

fn substitute(state: &mut [u8; 64]) {
    for i in 0..64 {
        let table = if i % 2 == 0 { &SIGMA_0 } else { &SIGMA_1 };
        state[i] = table[usize::from(state[i] & 15)];
    }
}

// The shift of the round, M on each column, and the shift undone.
fn mix_columns(state: &mut [u8; 64], round: u32) {
    for x in 0..4 {
        for z in 0..4 {
            let at = |y: usize| match round % 4 {
                1 => y + 4 * ((x + 4 - y) % 4) + 16 * z,
                3 => y + 4 * x + 16 * ((z + 4 - y) % 4),
                _ => y + 4 * x + 16 * z,
            };
            let column = mixed(state[at(0)], state[at(1)], state[at(2)], state[at(3)]);
            for y in 0..4 {
                state[at(y)] = column[y];
            }
        }
    }
}

// M as a network.
fn mixed(a: u8, b: u8, c: u8, d: u8) -> [u8; 4] {
    let (a, c) = (a ^ b, c ^ d);
    let (b, d) = (alpha(b) ^ c, alpha(d) ^ a);
    let (a, c) = (alpha(alpha(a)) ^ b, alpha(alpha(c)) ^ d);
    [a, b ^ c, c, d ^ a]
}

// Bits x0, x1, x2, x3 become x1, x2, x3, x0 + x1.
fn alpha(n: u8) -> u8 {
    (n >> 1) | (((n ^ (n >> 1)) & 1) << 3)
}

fn clocked(c: u32, polynomial: u32) -> u32 {
    let doubled = (c & 0x7FFF) << 1;
    if c & 0x8000 == 0 {
        doubled
    } else {
        doubled ^ (polynomial & 0xFFFF)
    }
}

// Bit i of the first into bit 0 of nibble 4i, and of the second into bit 0 of nibble 4i + 2.
fn add_constants(state: &mut [u8; 64], constants: [u32; 2]) {
    for i in 0..16 {
        state[4 * i] ^= ((constants[0] >> i) & 1) as u8;
        state[4 * i + 2] ^= ((constants[1] >> i) & 1) as u8;
    }
}
