ghost use Rattle.std.specs.Prelude.{◌≡◌, ◌<◌, ◌≤◌, length, string_bytes, IfOk, MatchResult};
ghost use Rattle.faults.specs.Causes.{mode_fault};
ghost use Rattle.faults.specs.declared.ModeCause.TheVariants.{Limit};
ghost use Rattle.hex.specs.Hex.{encode_lower};
ghost use Rattle.modes.specs.Hash.{hash};
ghost use Rattle.saturnin.specs.Rounds.{forward};
ghost use Rattle.desk.specs.Lines.{DigestAnswer, DigitsSpell};

use crate::unmade::Unmade;
use faults::ModeFault;
use saturnin_words::WordForm;
use std::alloc::{AllocError, Global};

/// The line of a file: its digest in 64 hexadecimal digits, and its name.
/// Refused, with `Limit`, is a file of more than 65,536 bytes.
pub fn digest_line(heap: Global, name: &str, bytes: &[u8]) -> Result<String, Unmade>
    ensures line { DigestAnswer string_bytes name.now bytes.now result }
    ensures spelt { IfOk result (λ _. DigitsSpell (hash forward bytes.now)) }
{
    let digest = digest_of(bytes)?;
    let text = digits_of(heap, digest.as_slice())?;
    Ok(format!(in heap; "{text}  {name}")?)
}

// Bytes in hexadecimal digits, which spell them.
fn digits_of(heap: Global, bytes: &[u8]) -> Result<String, AllocError>
    ensures { IfOk result
        (λ text. (string_bytes text ≡ encode_lower bytes.now) × DigitsSpell bytes.now) }
{
    hex::encode(heap, bytes)
}

fn digest_of(bytes: &[u8]) -> Result<[u8; 32], ModeFault>
    ensures { MatchResult result
        (λ digest. (length bytes.now ≤ 65536) × (digest ≡ hash forward bytes.now))
        (λ fault. (65536 < length bytes.now) × (fault ≡ mode_fault Limit)) }
{
    let mut digest = [0; 32];
    modes::hash(&WordForm, bytes, &mut digest)?;
    Ok(digest)
}
