#![tactic(auto)]

mod found;
mod locks;
mod openings;
mod seals;
mod slips;

pub use found::Found;
pub use locks::{PlaceLock, SlipLock};
