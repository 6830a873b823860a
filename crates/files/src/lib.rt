#![tactic(auto)]

mod images;
mod unread;
mod whole;

pub use images::{read_plate, read_tray};
pub use unread::Unread;
pub use whole::{read_limited, write_whole};
