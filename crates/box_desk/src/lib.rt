#![tactic(auto)]

mod answers;
mod asks;
mod desk;
mod hand;
mod image;
mod problems;
mod reader;
mod settings;
mod shown;
mod worker;

pub use desk::work_script;
pub use hand::Hand;
pub use image::Image;
