ghost use Rattle.std.specs.Prelude.{◌≡◌, []};
ghost use Rattle.modes.specs.Bytes.{padded};
ghost use Rattle.modes.specs.Chains.{chain as chained};
ghost use Rattle.test_chains.specs.Runs.{handed, ChainsGiveTheTag};

use cipher::Cipher;
use faults::ModeFault;
use modes::{CounterBlock, DataChain, TextChain};

/// What one call hands to a chain.
#[derive(Drop)]
pub(crate) enum Piece {
    Block(Vec<u8>),
    Tail(Vec<u8>),
}

/// The tag after any run of calls on the chains: first those on the data, then those on the text.
/// A call that is refused changes nothing, and a later tail replaces an earlier one. Refused with 2
/// where the nonce has over 20 bytes.
#[tactic(auto, unfolding(modes::specs::Cascade::tag))]
pub(crate) fn tag_of_run<C: Cipher>(
    cipher: &C,
    key: &[u8; 32],
    nonce: &[u8],
    associated: &[Piece],
    text: &[Piece],
) -> Result<[u8; 32], ModeFault>
    ensures { ChainsGiveTheTag (C.Cipher.forward cipher.now) key.now nonce.now
        (handed associated.now) (handed text.now) result }
{
    let chain = DataChain::start(cipher, key, &CounterBlock::new(nonce, 0)?);
    Ok(run_text(run_data(chain, associated), text))
}

// All calls on the data, and the one that closes it.
fn run_data<'a, C: Cipher>(mut chain: DataChain<'a, C>, pieces: &[Piece]) -> TextChain<'a, C>
    requires { chain.tail ≡ padded 32 [] }
    ensures cipher { result.cipher.now ≡ chain.entry.cipher.now }
    ensures value { result.value ≡ chained (C.Cipher.forward chain.entry.cipher.now) 2 3 10
        chain.entry.value (handed pieces.now) }
    ensures tail { result.tail ≡ padded 32 [] }
{
    for piece in pieces {
        match piece {
            Piece::Block(bytes) => {
                let _ = chain.data_block(bytes);
            }
            Piece::Tail(bytes) => {
                let _ = chain.data_tail(bytes);
            }
        }
    }
    chain.close()
}

// All calls on the text, and the one that gives the tag.
fn run_text<C: Cipher>(mut chain: TextChain<C>, pieces: &[Piece]) -> [u8; 32]
    requires { chain.tail ≡ padded 32 [] }
    ensures { result ≡ chained (C.Cipher.forward chain.entry.cipher.now) 4 5 10
        chain.entry.value (handed pieces.now) }
{
    for piece in pieces {
        match piece {
            Piece::Block(bytes) => {
                let _ = chain.text_block(bytes);
            }
            Piece::Tail(bytes) => {
                let _ = chain.text_tail(bytes);
            }
        }
    }
    chain.close()
}
