ghost use Rattle.std.specs.Prelude.{◌≡◌, ℕ, ◌<◌, ◌≤◌, length};
ghost use Rattle.faults.specs.Tables.{Checks};
ghost use Rattle.modes.specs.Cascade.{keystream, ctr as masked_by, tag as tag_value};
ghost use Rattle.modes.specs.Cascade.{cascade_table, CascadeSeals, CascadeOpens};
ghost use Rattle.modes.specs.Exact.{CascadeOpensExactly};

use crate::bytes::{add, same};
use crate::chains::DataChain;
use crate::counters::Nonce;
use cipher::{Cipher, Parameters};
use faults::{ModeCause, ModeFault};

/// What a text is sealed under by CTR-Cascade: a key of 32 bytes, a nonce of at most 20, and
/// associated data of at most 65,536.
#[derive(Drop)]
pub struct Cascade<'a, C> {
    pub cipher: &'a C,
    pub key: &'a [u8],
    pub nonce: &'a [u8],
    pub associated: &'a [u8],
}

impl<C: Cipher> Cascade<'_, C> {
    /// Seals a message of at most 65,536 bytes: its ciphertext goes into `out`, which is as long,
    /// and the tag into `tag`, of 32 bytes. Refused with 1 where the key or `tag` has not 32 bytes,
    /// or `out` is not as long as the message, and with 2 where nonce, associated data or message
    /// are over their limits; both buffers then stay.
    pub fn seal(&self, message: &[u8], out: &mut [u8], tag: &mut [u8]) -> Result<(), ModeFault>
        ensures { CascadeSeals (C.Cipher.forward self.now.cipher.now) self.now.key.now
            self.now.nonce.now self.now.associated.now message.now out.old tag.old
            result out.new tag.new }
    {
        let under = self.check_lengths(message.len(), out.len(), tag.len())?;
        out.copy_from_slice(message);
        under.ctr(out);
        tag.copy_from_slice(&under.tag(self.associated, out));
        Ok(())
    }

    /// Opens a ciphertext into `out`, which is as long. Refused with 1 and 2 as a sealing is, and
    /// `out` then stays; and with 11 where the tag differs, and `out` then becomes zero.
    pub fn open(&self, text: &[u8], tag: &[u8], out: &mut [u8]) -> Result<(), ModeFault>
        ensures opens { CascadeOpens (C.Cipher.forward self.now.cipher.now) self.now.key.now
            self.now.nonce.now self.now.associated.now text.now tag.now out.old result out.new }
        ensures exactly { CascadeOpensExactly (C.Cipher.forward self.now.cipher.now)
            self.now.key.now self.now.nonce.now self.now.associated.now text.now tag.now out.old
            result out.new }
    {
        self.opened(text, tag, out)
    }

    // What the call does; that it is exact follows from it.
    fn opened(&self, text: &[u8], tag: &[u8], out: &mut [u8]) -> Result<(), ModeFault>
        ensures { CascadeOpens (C.Cipher.forward self.now.cipher.now) self.now.key.now
            self.now.nonce.now self.now.associated.now text.now tag.now out.old result out.new }
    {
        let Ok(tag) = tag.try_into() else {
            return Err(ModeCause::Length.into());
        };
        let under = self.check_lengths(text.len(), out.len(), 32)?;
        if !same(tag, &under.tag(self.associated, text)) {
            out.fill(0);
            return Err(ModeCause::Tag.into());
        }
        out.copy_from_slice(text);
        under.ctr(out);
        Ok(())
    }

    // Whether all lengths are right, also those of the text, the output buffer and the tag.
    fn check_lengths(&self, text: usize, out: usize, tag: usize) -> Result<Keyed<'_, C>, ModeFault>
        ensures { Checks
            (cascade_table (length self.now.key.now) (length self.now.nonce.now)
            (length self.now.associated.now) text out tag)
            (λ under. (under.cipher.now ≡ self.now.cipher.now) × (under.key.now ≡ self.now.key.now)
            × (under.nonce.bytes.now ≡ self.now.nonce.now) × (length self.now.nonce.now ≤ 20)
            × (length self.now.key.now ≡ 32) × (out ≡ text) × (tag ≡ 32)
            × (length self.now.associated.now ≤ 65536) × (text ≤ 65536))
            result }
    {
        let Ok(key) = self.key.try_into() else {
            return Err(ModeCause::Length.into());
        };
        if out != text || tag != 32 {
            return Err(ModeCause::Length.into());
        }
        if self.associated.len() > 65536 || text > 65536 {
            return Err(ModeCause::Limit.into());
        }
        Ok(Keyed {
            cipher: self.cipher,
            key,
            nonce: Nonce::new(self.nonce)?,
        })
    }
}

// A cipher under a key, for one nonce.
#[derive(Drop)]
struct Keyed<'a, C> {
    cipher: &'a C,
    key: &'a [u8; 32],
    nonce: Nonce<'a>,
}

impl<C: Cipher> Keyed<'_, C> {
    #[tactic(auto, unfolding(crate::specs::Cascade::keystream))]
    fn keystream_block(&self, i: usize) -> [u8; 32]
        requires { i < 65536 }
        ensures { result ≡ keystream (C.Cipher.forward self.now.cipher.now) self.now.key.now
            self.now.nonce.bytes.now i }
    {
        let counter = self.nonce.counted(i as u64 + 1);
        self.cipher.encrypt_block(
            self.key,
            Parameters {
                separator: 1,
                super_rounds: 10,
            },
            &counter.bytes,
        )
    }

    // Counter mode, in place, block by block; the last one may be short.
    fn ctr(&self, out: &mut [u8])
        requires { length out.old ≤ 65536 }
        ensures { out.new ≡ masked_by (C.Cipher.forward self.now.cipher.now) self.now.key.now
            self.now.nonce.bytes.now out.old }
    {
        let n = out.len();
        for i in 0..n.div_ceil(32) {
            let end = (32 * i + 32).min(n);
            add(&mut out[32 * i..end], &self.keystream_block(i));
        }
    }

    // The tag of data and ciphertext.
    #[tactic(auto, unfolding(crate::specs::Cascade::tag))]
    fn tag(&self, associated: &[u8], text: &[u8]) -> [u8; 32]
        ensures { result ≡ tag_value (C.Cipher.forward self.now.cipher.now) self.now.key.now
            self.now.nonce.bytes.now associated.now text.now }
    {
        let mut data_chain = DataChain::start(self.cipher, self.key, &self.nonce.counted(0));
        data_chain.feed(associated);
        let mut text_chain = data_chain.close();
        text_chain.feed(text);
        text_chain.close()
    }
}
