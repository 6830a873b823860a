#![tactic(auto)]

mod held;
mod inventory;
mod reports;

pub use held::HeldRecord;
pub use inventory::{inventory_of, open_places};
pub use reports::report;
