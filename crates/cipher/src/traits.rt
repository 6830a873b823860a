ghost use Rattle.std.specs.Prelude.{◌≡◌, ℕ, length};
ghost use Rattle.faults.specs.Tables.{Checks};
ghost use Rattle.cipher.specs.Meaning.{BlockFunction, Takes, GivesBlocks, TwoWay, OnlyBlock};
ghost use Rattle.cipher.specs.Calls.{Calls, call_table};

use crate::parameters::Parameters;
use faults::{ModeCause, ModeFault};

/// A cipher is a function from key, parameters and block to block. No call changes it.
pub trait Cipher {
    ghost forward: { Self → BlockFunction };

    /// The block that the cipher gives under a key.
    fn encrypt_block(&self, key: &[u8; 32], by: Parameters, block: &[u8; 32]) -> [u8; 32]
        ensures { result ≡ forward self.now key.now by.separator by.«super_rounds» block.now };

    /// The same in the block's own buffer, of any key, parameters and block. Refused with 1 where
    /// key or block has not 32 bytes, and with 3 outside the ranges of the parameters; the block
    /// then stays.
    fn encrypt(
        &self,
        key: &[u8],
        separator: u8,
        super_rounds: u8,
        block: &mut [u8],
    ) -> Result<(), ModeFault>
        ensures { Calls (forward self.now) key.now separator «super_rounds» block.old
            result block.new }
    {
        let (key, by, plain) = check_call(key, separator, super_rounds, block)?;
        block.copy_from_slice(&self.encrypt_block(&key, by, &plain));
        Ok(())
    }

    ghost gives_blocks: { (c : Self) → GivesBlocks (forward c) };
}

/// A cipher that can also turn a block back: into the only block that it takes to the given one.
pub trait TwoWayCipher: Cipher {
    ghost back: { Self → BlockFunction };

    /// The block that the cipher takes to the given one.
    fn decrypt_block(&self, key: &[u8; 32], by: Parameters, block: &[u8; 32]) -> [u8; 32]
        ensures { result ≡ back self.now key.now by.separator by.«super_rounds» block.now };

    /// The same in the block's own buffer, refused as `encrypt` is. No other block of 32 bytes goes
    /// to the given one.
    fn decrypt(
        &self,
        key: &[u8],
        separator: u8,
        super_rounds: u8,
        block: &mut [u8],
    ) -> Result<(), ModeFault>
        ensures calls { Calls (back self.now) key.now separator «super_rounds» block.old
            result block.new }
        ensures only { result ≡ Ok tt
            → OnlyBlock (Self.Cipher.forward self.now) key.now separator «super_rounds»
            block.old block.new }
    {
        let (key, by, text) = check_call(key, separator, super_rounds, block)?;
        block.copy_from_slice(&self.decrypt_block(&key, by, &text));
        Ok(())
    }

    ghost two_way: { (c : Self) → TwoWay (Self.Cipher.forward c) (back c) };
}

// What `encrypt` and `decrypt` share: what a call was handed, in the types of the block functions.
fn check_call(
    key: &[u8],
    separator: u8,
    super_rounds: u8,
    block: &[u8],
) -> Result<([u8; 32], Parameters, [u8; 32]), ModeFault>
    ensures { Checks (call_table (length key.now) separator «super_rounds» (length block.now))
        (λ call. Takes key.now separator «super_rounds» block.now × (call.0 ≡ key.now)
        × (call.1.separator ≡ separator) × (call.1.«super_rounds» ≡ «super_rounds»)
        × (call.2 ≡ block.now)) result }
{
    let (Ok(key), Ok(block)) = (key.try_into(), block.try_into()) else {
        return Err(ModeCause::Length.into());
    };
    Ok((key, Parameters::new(separator, super_rounds)?, block))
}
