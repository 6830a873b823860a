#![tactic(auto)]

mod cells;
mod plates;

pub use plates::Plate;
