// The panel: a stack of panes over a shelf, painted into a chain of picture buffers.
#![tactic(auto)]

mod asking;
mod calls;
mod looking;
mod opening;
mod painting;
mod panel;
mod sight;
mod working;

pub use panel::{Panel, Unopened};
