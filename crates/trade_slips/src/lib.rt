#![tactic(auto)]

mod contents;
mod kinds;
mod of_design;

pub use contents::{LAST_DAY, LAST_DESIGN, Licence, Loan, MOST_CENTS, MOST_COPIES, Receipt};
pub use kinds::{Licences, Loans, Receipts};
