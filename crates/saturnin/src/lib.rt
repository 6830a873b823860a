#![tactic(auto)]

mod form;
mod rounds;
mod schedule;
mod shifts;
mod theorems;

pub use form::Form;
pub use rounds::{decrypted, encrypted};
pub use schedule::{Constants, RoundConstants, Schedule};
pub use theorems::{back_gives_the_only_block, shifts_move_nibbles};
