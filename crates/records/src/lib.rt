#![tactic(auto)]

mod layout;
mod sheets;
mod slips;

pub use layout::{BLOCK_AT, HEAD_AT, LENGTH_AT, NUMBER_AT, TAG_AT, TEXT_AT, TEXT_ROOM};
pub use sheets::{Record, begin};
pub use slips::Slip;
