ghost use Rattle.std.specs.Prelude.{◌≡◌, ◌≤◌, [], length};
ghost use Rattle.modes.specs.Bytes.{padded, full_blocks, tail_of};
ghost use Rattle.modes.specs.Chains.{link as linked, links, TakesBlock, TakesTail};

use crate::bytes::{pad, xor};
use crate::counters::CounterBlock;
use cipher::{Cipher, Parameters};
use faults::{ModeCause, ModeFault};

// The chain value after a block.
#[tactic(auto, unfolding(crate::specs::Chains::link))]
fn link<C: Cipher>(cipher: &C, by: Parameters, value: &[u8; 32], block: &[u8; 32]) -> [u8; 32]
    ensures { result ≡ linked (C.Cipher.forward cipher.now) by.separator by.«super_rounds»
        value.now block.now }
{
    xor(block, &cipher.encrypt_block(value, by, block))
}

/// A chain: a value of 32 bytes, which is the key of its next block, and a tail of 0 to 31 bytes,
/// which it holds padded. It takes blocks by the separator BLOCKS, and the tail by TAIL.
#[derive(Drop)]
pub struct Chain<'a, C, const BLOCKS: u8, const TAIL: u8, const SUPER_ROUNDS: u8> {
    pub(crate) cipher: &'a C,
    pub(crate) value: [u8; 32],
    pub(crate) tail: [u8; 32],
    ghost separators: { (BLOCKS ≤ 15) × (TAIL ≤ 15) },
    ghost rounds: { (10 ≤ SUPER_ROUNDS) × (SUPER_ROUNDS ≤ 31) },
}

/// A chain that takes associated data; closing it gives a text chain.
pub type DataChain<'a, C> = Chain<'a, C, 2, 3, 10>;

/// A chain that takes ciphertext, after all data; closing it gives the tag.
pub type TextChain<'a, C> = Chain<'a, C, 4, 5, 10>;

impl<'a, C: Cipher, const BLOCKS: u8, const TAIL: u8, const SUPER_ROUNDS: u8> Chain<
    'a,
    C,
    BLOCKS,
    TAIL,
    SUPER_ROUNDS,
> {
    // A chain that starts from a value, with no tail.
    pub(crate) fn from(cipher: &'a C, value: [u8; 32]) -> Chain<'a, C, BLOCKS, TAIL, SUPER_ROUNDS>
        requires separators { (BLOCKS ≤ 15) × (TAIL ≤ 15) }
        requires rounds { (10 ≤ SUPER_ROUNDS) × (SUPER_ROUNDS ≤ 31) }
        ensures cipher { result.cipher.now ≡ cipher.now }
        ensures value { result.value ≡ value }
        ensures tail { result.tail ≡ padded 32 [] }
    {
        Chain {
            cipher,
            value,
            tail: pad(&[]),
        }
    }

    fn take(&mut self, block: &[u8; 32])
        ensures cipher { self.new.cipher.now ≡ self.old.cipher.now }
        ensures value { self.new.value ≡ linked (C.Cipher.forward self.old.cipher.now) BLOCKS
            SUPER_ROUNDS self.old.value block.now }
        ensures tail { self.new.tail ≡ self.old.tail }
    {
        self.value = link(
            self.cipher,
            Parameters {
                separator: BLOCKS,
                super_rounds: SUPER_ROUNDS,
            },
            &self.value,
            block,
        );
    }

    fn block(&mut self, bytes: &[u8]) -> Result<(), ModeFault>
        ensures cipher { self.new.cipher.now ≡ self.old.cipher.now }
        ensures value { TakesBlock (C.Cipher.forward self.old.cipher.now) BLOCKS SUPER_ROUNDS
            bytes.now self.old.value result self.new.value }
        ensures tail { self.new.tail ≡ self.old.tail }
    {
        let Ok(block) = bytes.try_into() else {
            return Err(ModeCause::Length.into());
        };
        self.take(block);
        Ok(())
    }

    fn tail(&mut self, bytes: &[u8]) -> Result<(), ModeFault>
        ensures cipher { self.new.cipher.now ≡ self.old.cipher.now }
        ensures value { self.new.value ≡ self.old.value }
        ensures tail { TakesTail bytes.now self.old.tail result self.new.tail }
    {
        if bytes.len() > 31 {
            return Err(ModeCause::Limit.into());
        }
        self.tail = pad(bytes);
        Ok(())
    }

    // All full blocks of a text, and its tail.
    pub(crate) fn feed(&mut self, bytes: &[u8])
        ensures cipher { self.new.cipher.now ≡ self.old.cipher.now }
        ensures value { self.new.value ≡ links (C.Cipher.forward self.old.cipher.now) BLOCKS
            SUPER_ROUNDS self.old.value bytes.now (full_blocks bytes.now) }
        ensures tail { self.new.tail ≡ padded 32 (tail_of bytes.now) }
    {
        let (blocks, tail) = bytes.as_chunks();
        for block in blocks {
            self.take(block);
        }
        self.tail = pad(tail);
    }

    // The value after the tail.
    pub(crate) fn end(self) -> [u8; 32]
        ensures { result ≡ linked (C.Cipher.forward self.entry.cipher.now) TAIL SUPER_ROUNDS
            self.entry.value self.entry.tail }
    {
        let by = Parameters {
            separator: TAIL,
            super_rounds: SUPER_ROUNDS,
        };
        link(self.cipher, by, &self.value, &self.tail)
    }
}

// The calls on data have names of their own: a text chain has none of them.
impl<'a, C: Cipher> DataChain<'a, C> {
    /// A chain that begins with a key and a counter block, which is that of counter 0 for a tag.
    pub fn start(cipher: &'a C, key: &[u8; 32], counter: &CounterBlock) -> DataChain<'a, C>
        ensures cipher { result.cipher.now ≡ cipher.now }
        ensures value { result.value
            ≡ linked (C.Cipher.forward cipher.now) 2 10 key.now counter.now.bytes }
        ensures tail { result.tail ≡ padded 32 [] }
    {
        let by = Parameters {
            separator: 2,
            super_rounds: 10,
        };
        Chain::from(cipher, link(cipher, by, key, &counter.bytes))
    }

    /// The next 32 bytes of the data. Refused with 1 where it has another length; the chain then
    /// stays.
    pub fn data_block(&mut self, bytes: &[u8]) -> Result<(), ModeFault>
        ensures cipher { self.new.cipher.now ≡ self.old.cipher.now }
        ensures value { TakesBlock (C.Cipher.forward self.old.cipher.now) 2 10
            bytes.now self.old.value result self.new.value }
        ensures tail { self.new.tail ≡ self.old.tail }
    {
        self.block(bytes)
    }

    /// The last 0 to 31 bytes of the data, in place of a tail that was told before. Refused with 2
    /// where they are more; the chain then stays.
    pub fn data_tail(&mut self, bytes: &[u8]) -> Result<(), ModeFault>
        ensures cipher { self.new.cipher.now ≡ self.old.cipher.now }
        ensures value { self.new.value ≡ self.old.value }
        ensures tail { TakesTail bytes.now self.old.tail result self.new.tail }
    {
        self.tail(bytes)
    }

    /// The chain for the ciphertext, once the data has ended: it takes the tail, which is empty
    /// where none was told.
    pub fn close(self) -> TextChain<'a, C>
        ensures cipher { result.cipher.now ≡ self.entry.cipher.now }
        ensures value { result.value ≡ linked (C.Cipher.forward self.entry.cipher.now) 3 10
            self.entry.value self.entry.tail }
        ensures tail { result.tail ≡ padded 32 [] }
    {
        Chain::from(self.cipher, self.end())
    }
}

impl<C: Cipher> TextChain<'_, C> {
    /// The next 32 bytes of the ciphertext. Refused with 1 where it has another length; the chain
    /// then stays.
    pub fn text_block(&mut self, bytes: &[u8]) -> Result<(), ModeFault>
        ensures cipher { self.new.cipher.now ≡ self.old.cipher.now }
        ensures value { TakesBlock (C.Cipher.forward self.old.cipher.now) 4 10
            bytes.now self.old.value result self.new.value }
        ensures tail { self.new.tail ≡ self.old.tail }
    {
        self.block(bytes)
    }

    /// The last 0 to 31 bytes of the ciphertext, in place of a tail that was told before. Refused
    /// with 2 where they are more; the chain then stays.
    pub fn text_tail(&mut self, bytes: &[u8]) -> Result<(), ModeFault>
        ensures cipher { self.new.cipher.now ≡ self.old.cipher.now }
        ensures value { self.new.value ≡ self.old.value }
        ensures tail { TakesTail bytes.now self.old.tail result self.new.tail }
    {
        self.tail(bytes)
    }

    /// The tag of 32 bytes: it takes the tail, which is empty where none was told.
    pub fn close(self) -> [u8; 32]
        ensures { result ≡ linked (C.Cipher.forward self.entry.cipher.now) 5 10
            self.entry.value self.entry.tail }
    {
        self.end()
    }
}
