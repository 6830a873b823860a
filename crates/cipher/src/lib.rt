#![tactic(auto)]

mod parameters;
mod traits;

pub use parameters::Parameters;
pub use traits::{Cipher, TwoWayCipher};
