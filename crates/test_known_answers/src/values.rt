use crate::records::{Record, Text};
use cipher::TwoWayCipher;
use faults::ModeFault;
use modes::Cascade;
use std::alloc::{AllocError, Global};

// Why there is no value.
#[derive(Drop)]
pub(crate) enum NoValue {
    Refused(ModeFault),
    Memory(AllocError),
}

impl From<ModeFault> for NoValue {
    fn from(f: ModeFault) -> NoValue {
        NoValue::Refused(f)
    }
}

impl From<AllocError> for NoValue {
    fn from(e: AllocError) -> NoValue {
        NoValue::Memory(e)
    }
}

// What a form of the cipher gives for the value that is left out. A record with associated data is
// one of CTR-Cascade, one with only a nonce of Short.
pub(crate) fn value<C: TwoWayCipher>(
    form: &C,
    heap: Global,
    record: &Record,
    text: &Text,
) -> Result<Vec<u8>, NoValue> {
    let key = record.key.as_slice();
    let nonce = record.nonce.as_deref();
    let (d, r) = (record.d, record.r);
    let text_nonce = nonce.unwrap_or(&[]);
    let under = |associated| Cascade {
        cipher: form,
        key,
        nonce: text_nonce,
        associated,
    };
    match (text, record.associated.as_deref(), nonce) {
        (Text::Message(message), _, _) => {
            after(
                vec![in heap; 0; 32]?,
                |digest| modes::hash(form, message, digest),
            )
        }
        (Text::Plain(message), Some(associated), _) => {
            let under = under(associated);
            sealed(heap, &under, message)
        }
        (Text::Cipher(text), Some(associated), _) => {
            let under = under(associated);
            opened(heap, &under, text)
        }
        (Text::Plain(message), None, Some(nonce)) => after(vec![in heap; 0; 32]?, |block| {
            modes::seal_short(form, key, nonce, message, block)
        }),
        (Text::Cipher(block), None, Some(nonce)) => opened_short(form, heap, key, nonce, block),
        (Text::Plain(text), None, None) => after(
            text.clone()?,
            |block| form.encrypt(key, d, r, block),
        ),
        (Text::Cipher(text), None, None) => after(
            text.clone()?,
            |block| form.decrypt(key, d, r, block),
        ),
    }
}

// The bytes, as a call leaves them.
fn after<F: FnOnce(&mut [u8]) -> Result<(), ModeFault>>(
    mut bytes: Vec<u8>,
    call: F,
) -> Result<Vec<u8>, NoValue>
    requires { F.IsAlwaysCallable call }
{
    call(&mut bytes)?;
    Ok(bytes)
}

// Ciphertext and tag.
fn sealed<C: TwoWayCipher>(
    heap: Global,
    under: &Cascade<C>,
    message: &[u8],
) -> Result<Vec<u8>, NoValue> {
    let mut out = vec![in heap; 0; message.len()]?;
    let mut tag = [0; 32];
    under.seal(message, &mut out, &mut tag)?;
    out.extend_from_slice(&tag)?;
    Ok(out)
}

// The text is ciphertext and tag, as sealing gives them.
fn opened<C: TwoWayCipher>(
    heap: Global,
    under: &Cascade<C>,
    text: &[u8],
) -> Result<Vec<u8>, NoValue> {
    let (text, tag) = text.split_at(text.len().saturating_sub(32));
    after(
        vec![in heap; 0; text.len()]?,
        |out| under.open(text, tag, out),
    )
}

fn opened_short<C: TwoWayCipher>(
    form: &C,
    heap: Global,
    key: &[u8],
    nonce: &[u8],
    block: &[u8],
) -> Result<Vec<u8>, NoValue> {
    let mut out = vec![in heap; 0; 15]?;
    let n = modes::open_short(form, key, nonce, block, &mut out)?;
    out.truncate(n);
    Ok(out)
}
