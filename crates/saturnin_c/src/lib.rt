#![tactic(auto)]

mod in_order;

ghost use Rattle.std.specs.Prelude.{◌≡◌, Result, ℕ};
ghost use Rattle.faults.specs.declared.ModeFault.{ModeFault};
ghost use Rattle.saturnin.specs.Rounds.{forward};
ghost use Rattle.saturnin.specs.Back.{back};
ghost use Rattle.cipher.specs.Calls.{Calls};
ghost use Rattle.cipher.specs.Meaning.{OnlyBlock};
ghost use Rattle.modes.specs.Hash.{Hashes};
ghost use Rattle.modes.specs.Cascade.{CascadeSeals, CascadeOpens};
ghost use Rattle.modes.specs.Exact.{CascadeOpensExactly};
ghost use Rattle.modes.specs.Short.{ShortSeals, ShortOpens, ShortOpensExactly};
ghost use Rattle.saturnin_c.specs.Answers.{Numbers, number_of, length_of};

use cipher::{Cipher, TwoWayCipher};
use faults::ModeFault;
use modes::{Cascade, open_short, seal_short};
use saturnin_words::WordForm;

// The cipher and its modes for programs in C, as `interface/saturnin.h` declares them. Each is
// one call of the library, whose clauses it states again, and answers 0 or the number of the
// refusal: 1 for a length, 2 for a limit, 3 for separator or super-rounds, and 11 or 12 for what
// does not open. A refused call leaves its buffers; 11 and 12 make that of the message zero.

/// Enciphers the block of 32 bytes in its own buffer, under a key of 32 bytes, by a separator of
/// 0 to 15 and 10 to 31 super-rounds. Refused with 1 or 3.
#[unsafe(no_mangle)]
pub extern "C" fn saturnin_encrypt(
    key: &[u8],
    separator: u8,
    super_rounds: u8,
    block: &mut [u8],
) -> u8
    ensures { Numbers (λ answer.
        Calls forward key.now separator «super_rounds» block.old answer block.new) result }
{
    number(WordForm.encrypt(key, separator, super_rounds, block))
}

/// Turns the block back, in its own buffer, into the only block that `saturnin_encrypt` takes to
/// the given one. Refused as `saturnin_encrypt` is.
#[unsafe(no_mangle)]
pub extern "C" fn saturnin_decrypt(
    key: &[u8],
    separator: u8,
    super_rounds: u8,
    block: &mut [u8],
) -> u8
    ensures calls { Numbers (λ answer.
        Calls back key.now separator «super_rounds» block.old answer block.new) result }
    ensures only { result ≡ 0
        → OnlyBlock forward key.now separator «super_rounds» block.old block.new }
{
    number(WordForm.decrypt(key, separator, super_rounds, block))
}

/// Writes the digest, 32 bytes, of a message of at most 65,536 bytes. Refused with 1 or 2.
#[unsafe(no_mangle)]
pub extern "C" fn saturnin_hash(message: &[u8], digest: &mut [u8]) -> u8
    ensures { Numbers (λ answer. Hashes forward message.now digest.old answer digest.new) result }
{
    number(modes::hash(&WordForm, message, digest))
}

/// Seals by CTR-Cascade: a key of 32 bytes, a nonce of at most 20, associated data and a message
/// of at most 65,536 each, a text as long as the message and a tag of 32. Refused with 1 or 2.
#[unsafe(no_mangle)]
pub extern "C" fn saturnin_seal(
    key: &[u8],
    nonce: &[u8],
    associated: &[u8],
    message: &[u8],
    text: &mut [u8],
    tag: &mut [u8],
) -> u8
    ensures { Numbers (λ answer.
        CascadeSeals forward key.now nonce.now associated.now message.now text.old tag.old
        answer text.new tag.new) result }
{
    let under = Cascade {
        cipher: &WordForm,
        key,
        nonce,
        associated,
    };
    number(under.seal(message, text, tag))
}

/// Opens what `saturnin_seal` made, of the same sizes. Refused with 1, with 2, and with 11 where
/// the tag differs.
#[unsafe(no_mangle)]
pub extern "C" fn saturnin_open(
    key: &[u8],
    nonce: &[u8],
    associated: &[u8],
    text: &[u8],
    tag: &[u8],
    message: &mut [u8],
) -> u8
    ensures { Numbers (λ answer.
        CascadeOpens forward key.now nonce.now associated.now text.now tag.now message.old
        answer message.new
        × CascadeOpensExactly forward key.now nonce.now associated.now text.now tag.now message.old
        answer message.new) result }
{
    let under = Cascade {
        cipher: &WordForm,
        key,
        nonce,
        associated,
    };
    number(under.open(text, tag, message))
}

/// Seals a message of at most 15 bytes under a key of 32 and a nonce of 16 into a block of 32.
/// Refused with 1 or 2.
#[unsafe(no_mangle)]
pub extern "C" fn saturnin_short_seal(
    key: &[u8],
    nonce: &[u8],
    message: &[u8],
    block: &mut [u8],
) -> u8
    ensures { Numbers (λ answer.
        ShortSeals forward key.now nonce.now message.now block.old answer block.new) result }
{
    number(seal_short(&WordForm, key, nonce, message, block))
}

/// Opens such a block into a buffer of 15 bytes: the message, then zeros; and writes the length of
/// the message, or 0. Refused with 1, and with 12 for another nonce or no padding.
#[unsafe(no_mangle)]
pub extern "C" fn saturnin_short_open(
    key: &[u8],
    nonce: &[u8],
    block: &[u8],
    message: &mut [u8],
    length: &mut usize,
) -> u8
    ensures { Numbers (λ answer.
        ShortOpens back key.now nonce.now block.now message.old answer message.new
        × ShortOpensExactly forward key.now nonce.now block.now message.old answer message.new
        × (length.new ≡ length_of answer)) result }
{
    match open_short(&WordForm, key, nonce, block, message) {
        Ok(n) => {
            *length = n;
            0
        }
        Err(fault) => {
            *length = 0;
            fault.number()
        }
    }
}

fn number(answer: Result<(), ModeFault>) -> u8
    ensures { result ≡ number_of answer }
{
    match answer {
        Ok(()) => 0,
        Err(fault) => fault.number(),
    }
}
