// Whole runs of a panel: from the opening over any sequence of calls.
#![tactic(auto)]

mod agreeing;
mod running;
mod stepping;
mod two;
mod whole;

pub use agreeing::open_and_run_two;
pub use running::run;
pub use stepping::step;
pub use two::Two;
pub use whole::open_and_run;
