#![tactic(auto)]

mod bytes;
mod form;
mod moves;
mod quad;
mod state;
mod tables;

ghost use Rattle.std.specs.Prelude.{◌≡◌};
ghost use Rattle.saturnin.specs.Rounds.{forward};
ghost use Rattle.saturnin.specs.Back.{back};
ghost use Rattle.saturnin.proofs.Laws.{forward-gives_blocks, forward-two_way};

use cipher::{Cipher, Parameters, TwoWayCipher};
use saturnin::{decrypted, encrypted};
use state::State;
use tables::with_constants;

/// The block cipher Saturnin in eight 32-bit words, with the S-boxes by AND, OR and XOR.
#[derive(Clone, Copy)]
pub struct WordForm;

impl Cipher for WordForm {
    ghost forward = { λ c. forward };

    ghost gives_blocks = { λ c. forward-gives_blocks };

    fn encrypt_block(&self, key: &[u8; 32], by: Parameters, block: &[u8; 32]) -> [u8; 32] {
        with_constants(
            by,
            |constants|
                ensures { result ≡ forward key.entry.now constants.entry.of.separator
                    constants.entry.of.«super_rounds» block.entry.now }
            { encrypted::<State>(constants, key, block) },
        )
    }
}

impl TwoWayCipher for WordForm {
    ghost back = { λ c. back };

    ghost two_way = { λ c. forward-two_way };

    fn decrypt_block(&self, key: &[u8; 32], by: Parameters, block: &[u8; 32]) -> [u8; 32] {
        with_constants(
            by,
            |constants|
                ensures { result ≡ back key.entry.now constants.entry.of.separator
                    constants.entry.of.«super_rounds» block.entry.now }
            { decrypted::<State>(constants, key, block) },
        )
    }
}
