ghost use Rattle.std.specs.Prelude.{◌≡◌};
ghost use Rattle.saturnin.specs.Rounds.{forward};
ghost use Rattle.saturnin.specs.Back.{back};
ghost use Rattle.cipher.specs.Calls.{Calls};
ghost use Rattle.modes.specs.Hash.{Hashes};
ghost use Rattle.modes.specs.Cascade.{CascadeSeals, CascadeOpens};
ghost use Rattle.modes.specs.Short.{ShortSeals, ShortOpens};
ghost use Rattle.saturnin_c.specs.Answers.{Numbers, length_of};

use crate::{
    saturnin_decrypt, saturnin_encrypt, saturnin_hash, saturnin_open, saturnin_seal,
    saturnin_short_open, saturnin_short_seal,
};

// A caller of each function, with its arguments in the order of `interface/saturnin.h`: a program
// in C knows them by their places alone.

pub(crate) fn encrypt(key: &[u8], separator: u8, super_rounds: u8, block: &mut [u8]) -> u8
    ensures { Numbers (λ answer.
        Calls forward key.now separator «super_rounds» block.old answer block.new) result }
{
    saturnin_encrypt(key, separator, super_rounds, block)
}

pub(crate) fn decrypt(key: &[u8], separator: u8, super_rounds: u8, block: &mut [u8]) -> u8
    ensures { Numbers (λ answer.
        Calls back key.now separator «super_rounds» block.old answer block.new) result }
{
    saturnin_decrypt(key, separator, super_rounds, block)
}

pub(crate) fn hash(message: &[u8], digest: &mut [u8]) -> u8
    ensures { Numbers (λ answer. Hashes forward message.now digest.old answer digest.new) result }
{
    saturnin_hash(message, digest)
}

pub(crate) fn seal(
    key: &[u8],
    nonce: &[u8],
    associated: &[u8],
    message: &[u8],
    text: &mut [u8],
    tag: &mut [u8],
) -> u8
    ensures { Numbers (λ answer.
        CascadeSeals forward key.now nonce.now associated.now message.now text.old tag.old
        answer text.new tag.new) result }
{
    saturnin_seal(key, nonce, associated, message, text, tag)
}

pub(crate) fn open(
    key: &[u8],
    nonce: &[u8],
    associated: &[u8],
    text: &[u8],
    tag: &[u8],
    message: &mut [u8],
) -> u8
    ensures { Numbers (λ answer.
        CascadeOpens forward key.now nonce.now associated.now text.now tag.now message.old
        answer message.new) result }
{
    saturnin_open(key, nonce, associated, text, tag, message)
}

pub(crate) fn short_seal(key: &[u8], nonce: &[u8], message: &[u8], block: &mut [u8]) -> u8
    ensures { Numbers (λ answer.
        ShortSeals forward key.now nonce.now message.now block.old answer block.new) result }
{
    saturnin_short_seal(key, nonce, message, block)
}

pub(crate) fn short_open(
    key: &[u8],
    nonce: &[u8],
    block: &[u8],
    message: &mut [u8],
    length: &mut usize,
) -> u8
    ensures { Numbers (λ answer.
        ShortOpens back key.now nonce.now block.now message.old answer message.new
        × (length.new ≡ length_of answer)) result }
{
    saturnin_short_open(key, nonce, block, message, length)
}
