ghost use Rattle.std.specs.Prelude.{◌≡◌, []};
ghost use Rattle.modes.specs.Bytes.{padded};
ghost use Rattle.modes.specs.Chains.{chain as chained};
ghost use Rattle.test_chains.specs.Runs.{ChainsGiveTheTag};

use cipher::Cipher;
use faults::ModeFault;
use modes::{CounterBlock, DataChain, TextChain};

/// The tag of associated data and a text, each handed to a chain block by block, and then its tail
/// of 0 to 31 bytes. Refused with 2 where the nonce has over 20 bytes.
#[tactic(auto, unfolding(modes::specs::Cascade::tag))]
pub(crate) fn tag_of_texts<C: Cipher>(
    cipher: &C,
    key: &[u8; 32],
    nonce: &[u8],
    associated: &[u8],
    text: &[u8],
) -> Result<[u8; 32], ModeFault>
    ensures { ChainsGiveTheTag (C.Cipher.forward cipher.now) key.now nonce.now
        associated.now text.now result }
{
    let chain = DataChain::start(cipher, key, &CounterBlock::new(nonce, 0)?);
    Ok(hand_text(hand_data(chain, associated), text))
}

// The blocks of the data and its tail. No call is refused, by the lengths.
fn hand_data<'a, C: Cipher>(mut chain: DataChain<'a, C>, bytes: &[u8]) -> TextChain<'a, C>
    ensures cipher { result.cipher.now ≡ chain.entry.cipher.now }
    ensures value { result.value
        ≡ chained (C.Cipher.forward chain.entry.cipher.now) 2 3 10 chain.entry.value bytes.now }
    ensures tail { result.tail ≡ padded 32 [] }
{
    let (blocks, tail) = bytes.as_chunks::<32>();
    for block in blocks {
        let _ = chain.data_block(block);
    }
    let _ = chain.data_tail(tail);
    chain.close()
}

// The same of the text.
fn hand_text<C: Cipher>(mut chain: TextChain<C>, bytes: &[u8]) -> [u8; 32]
    ensures { result
        ≡ chained (C.Cipher.forward chain.entry.cipher.now) 4 5 10 chain.entry.value bytes.now }
{
    let (blocks, tail) = bytes.as_chunks::<32>();
    for block in blocks {
        let _ = chain.text_block(block);
    }
    let _ = chain.text_tail(tail);
    chain.close()
}
