#![tactic(auto)]

mod page;
mod pages;
mod sheet;
mod turn;

pub use sheet::Sheet;
pub use turn::turn_to;
