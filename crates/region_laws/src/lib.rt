#![tactic(auto)]

mod rect;

pub use rect::Rect;
