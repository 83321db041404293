#![tactic(auto)]

mod cells;
mod character;
mod figure;
mod glyphs;
mod reading;
mod show;

pub use character::Character;
pub use figure::Figure;
pub use reading::Reading;
pub use show::show_number;
