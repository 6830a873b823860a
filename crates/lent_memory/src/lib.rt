#![tactic(auto)]

mod making;
mod plates;
mod seals;
mod trays;

pub use making::Making;
pub use plates::{box_on_plate, seal_in_plate};
pub use seals::seal_next;
pub use trays::{box_on_tray, seal_in_tray};
