// The plain types of the panel's calls, and in specs/ the reference compositor, which says what the panel must do.
#![tactic(auto)]

mod answer;
mod call;
mod pane;
mod refusal;

pub use answer::{Answer, Shown};
pub use call::Call;
pub use pane::Pane;
pub use refusal::{Layer, Refusal};
