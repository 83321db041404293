#![tactic(auto)]

mod order;
mod pair;
mod shelf;
mod size;

pub use order::{Order, OrderRefused};
pub use pair::Pair;
pub use shelf::Shelf;
pub use size::Size;
