// What a panel keeps of its picture: the stack of panes, the region that is damaged since the last show, and the
// damages of the last shows.
#![tactic(auto)]

mod boxes;
mod calls;
mod checks;
mod damage;
mod known;
mod scene;
mod stack;

pub use checks::check_tell;
pub use known::Known;
pub use scene::Scene;
