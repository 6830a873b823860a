#![tactic(auto)]

mod digests;
mod locks;
mod shelves;
mod unmade;

pub use digests::digest_line;
pub use locks::{LockKey, Nonce, locked_bytes, unlocked_bytes};
pub use shelves::{plate_report, tray_report};
pub use unmade::Unmade;
