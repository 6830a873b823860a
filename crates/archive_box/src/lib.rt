#![tactic(auto)]

mod boxes;
mod draws;
mod ends;
mod makings;
mod number;
mod places;
mod seals;
mod slips;
#[cfg(test)]
mod tests;
mod viewing;

pub use boxes::ArchiveBox;
pub use number::{Number, Refusal};
pub use viewing::{Sheet, Viewing, number_shown};
