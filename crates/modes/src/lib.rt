#![tactic(auto)]

mod bytes;
mod cascade;
mod chains;
mod counters;
mod hashes;
mod shorts;

pub use cascade::Cascade;
pub use chains::{DataChain, TextChain};
pub use counters::CounterBlock;
pub use hashes::hash;
pub use shorts::{open_short, seal_short};
