ghost use Rattle.std.specs.Prelude.{◌≡◌, ◌≢◌, ℕ, ◌-◌, ◌<◌, ◌≤◌, List, ◌++◌, length, take, drop};
ghost use Rattle.std.specs.Prelude.{MatchOption};
ghost use Rattle.modes.specs.Bytes.{padded};
ghost use Rattle.modes.specs.Short.{ShortSeals, ShortOpens, ShortOpensExactly};

use crate::bytes::pad;
use cipher::{Parameters, TwoWayCipher};
use faults::{ModeCause, ModeFault};
use octets::joined;

const SHORT: Parameters = Parameters {
    separator: 6,
    super_rounds: 10,
};

/// Seals a message of at most 15 bytes under a key of 32 and a nonce of 16 into a block of 32.
/// Refused with 1 where key, nonce or block have another length, and with 2 where the message is
/// longer; the block then stays.
pub fn seal_short<C: TwoWayCipher>(
    cipher: &C,
    key: &[u8],
    nonce: &[u8],
    message: &[u8],
    block: &mut [u8],
) -> Result<(), ModeFault>
    ensures { ShortSeals (C.Cipher.forward cipher.now) key.now nonce.now message.now block.old
        result block.new }
{
    let (Ok(key), Ok(nonce)) = (key.try_into(), nonce.try_into()) else {
        return Err(ModeCause::Length.into());
    };
    if block.len() != 32 {
        return Err(ModeCause::Length.into());
    }
    if message.len() > 15 {
        return Err(ModeCause::Limit.into());
    }
    let plain = short_block(nonce, message);
    block.copy_from_slice(&cipher.encrypt_block(key, SHORT, &plain));
    Ok(())
}

/// Opens a block into a buffer of 15 bytes: the message, then zeros; its length is the answer.
/// Refused with 1 where key, nonce, block or buffer have another length, and the buffer then stays;
/// and with 12 where the block holds another nonce or no padding, and the buffer then becomes zero.
pub fn open_short<C: TwoWayCipher>(
    cipher: &C,
    key: &[u8],
    nonce: &[u8],
    block: &[u8],
    out: &mut [u8],
) -> Result<usize, ModeFault>
    ensures opens { ShortOpens (C.TwoWayCipher.back cipher.now) key.now nonce.now block.now out.old
        result out.new }
    ensures exactly { ShortOpensExactly (C.Cipher.forward cipher.now) key.now nonce.now block.now
        out.old result out.new }
{
    opened(cipher, key, nonce, block, out)
}

// What the call does; that it is exact follows from it.
fn opened<C: TwoWayCipher>(
    cipher: &C,
    key: &[u8],
    nonce: &[u8],
    block: &[u8],
    out: &mut [u8],
) -> Result<usize, ModeFault>
    ensures { ShortOpens (C.TwoWayCipher.back cipher.now) key.now nonce.now block.now out.old
        result out.new }
{
    let (Ok(key), Ok(nonce), Ok(block)) = (key.try_into(), nonce.try_into(), block.try_into())
    else {
        return Err(ModeCause::Length.into());
    };
    if out.len() != 15 {
        return Err(ModeCause::Length.into());
    }
    let plain = cipher.decrypt_block(key, SHORT, block);
    out.fill(0);
    let Some(n) = message_length(nonce, &plain) else {
        return Err(ModeCause::Padding.into());
    };
    out[..n].copy_from_slice(&plain[16..16 + n]);
    Ok(n)
}

// The nonce, the message, 0x80 and zeros.
fn short_block(nonce: &[u8; 16], message: &[u8]) -> [u8; 32]
    requires { length message.now ≤ 15 }
    ensures { result ≡ nonce.now ++ padded 16 message.now }
{
    joined(nonce, &pad::<16>(message))
}

// The length of the message in a block with this nonce and a padding.
fn message_length(nonce: &[u8; 16], plain: &[u8; 32]) -> Option<usize>
    ensures { MatchOption result
        ((m : List ℕ) → length m ≤ 15 → plain.now ≢ nonce.now ++ padded 16 m)
        (λ n. (n ≤ 15) × (plain.now ≡ nonce.now ++ padded 16 (take n (drop 16 plain.now)))) }
{
    if nonce[..] != plain[..16] {
        return None;
    }
    padding(&plain[16..])
}

// Where the padding byte stands, with only zeros after it.
fn padding(bytes: &[u8]) -> Option<usize>
    ensures { MatchOption result
        ((m : List ℕ) → length m < length bytes.now → bytes.now ≢ padded (length bytes.now) m)
        (λ n. (n < length bytes.now)
        × (bytes.now ≡ padded (length bytes.now) (take n bytes.now))) }
{
    let n = bytes.iter().rposition(|b| *b != 0)?;
    (bytes[n] == 0x80).then_some(n)
}
