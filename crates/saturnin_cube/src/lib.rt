#![tactic(auto)]

mod bytes;
mod columns;
mod form;
mod moves;
mod nibble;
mod rows;
mod s_boxes;
mod shape;
mod sums;

ghost use Rattle.saturnin.specs.Rounds.{forward};
ghost use Rattle.saturnin.specs.Back.{back};
ghost use Rattle.saturnin.proofs.Laws.{forward-gives_blocks, forward-two_way};

use crate::shape::Cube;
use cipher::{Cipher, Parameters, TwoWayCipher};
use saturnin::{Schedule, decrypted, encrypted};

/// The block cipher Saturnin on a cube of nibbles, step by step as it is defined.
#[derive(Clone, Copy)]
pub struct CubeForm;

impl Cipher for CubeForm {
    ghost forward = { λ c. forward };

    ghost gives_blocks = { λ c. forward-gives_blocks };

    fn encrypt_block(&self, key: &[u8; 32], by: Parameters, block: &[u8; 32]) -> [u8; 32] {
        encrypted::<Cube>(Schedule::new(by).constants(), key, block)
    }
}

impl TwoWayCipher for CubeForm {
    ghost back = { λ c. back };

    ghost two_way = { λ c. forward-two_way };

    fn decrypt_block(&self, key: &[u8; 32], by: Parameters, block: &[u8; 32]) -> [u8; 32] {
        decrypted::<Cube>(Schedule::new(by).constants(), key, block)
    }
}
