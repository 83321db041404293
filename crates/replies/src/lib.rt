// What is answered to a line of the frame script, and how it is written.
#![tactic(auto)]

mod refused;
mod reply;
mod row;

pub use refused::{Layer, Refused};
pub use reply::{Outcome, Reply, write_reply};
pub use row::write_row;
