#![tactic(auto)]

mod box_calls;
mod calls;
mod messages;
mod settings;
mod trade_calls;
mod usage;
mod words;

pub use box_calls::BoxCall;
pub use calls::Call;
pub use messages::Message;
pub use settings::{CipherForm, Setting};
pub use trade_calls::TradeCall;
pub use usage::usage_of;
