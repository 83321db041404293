#![tactic(auto)]

mod picking;
mod picks;
mod rotating;
mod rule;
mod runs;
mod single;
mod turning;

pub use picking::Picking;
pub use picks::Picks;
pub use rotating::{Rotate, Rotating};
pub use rule::Rule;
pub use runs::{kinds_swap, kinds_turn, meet_ages, swap_times, worked_ages};
pub use single::{Single, Stay};
pub use turning::Turning;
