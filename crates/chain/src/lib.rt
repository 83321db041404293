#![tactic(auto)]

mod ages;
mod buffers;
mod chain;
mod laws;
mod layout;
mod pick;
mod shape;
mod state;

pub use buffers::Buffers;
pub use chain::Chain;
pub use laws::{ages_tell_frames, steps_are_functions, write_once, write_then_read};
pub use layout::Layout;
pub use pick::Pick;
pub use shape::Shape;
