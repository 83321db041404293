// The frame script: lines, fields and records. What is answered to a line stands in the crate `replies`, whose names are
// passed on from here.
#![tactic(auto)]

mod lexer;
mod lines;
mod number;
mod opening;
mod parting;
mod record;
mod settings;
mod token;
mod verb;

pub use lexer::Lexer;
pub use lines::first_line;
pub use record::{Opening, Record, read_record};
pub use replies::{Layer, Outcome, Refused, Reply, write_reply, write_row};
pub use settings::Settings;
pub use token::Token;
