#![tactic(auto)]

mod list;

pub use list::NumbersOut;
