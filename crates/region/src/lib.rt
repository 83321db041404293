// Boxes clipped to a display, and regions: sets of display pixels as banded lists of at most 32 boxes.
#![tactic(auto)]

mod asking;
mod bands;
mod clip;
mod cover;
mod display;
mod join;
mod making;
mod merge;
mod pile;
mod region;
mod signed_rect;
mod stacking;
mod strip;
mod sweep;

pub use display::Display;
pub use region::Region;
pub use region_laws::Rect;
pub use signed_rect::SignedRect;
