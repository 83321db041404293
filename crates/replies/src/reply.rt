// What is answered to a line, as text.
ghost use Rattle.std.specs.Prelude.{◌≡◌, ◌++◌, is_ok, if◌then◌else◌, Some, string_bytes};
ghost use Rattle.replies.specs.Replies.{layer_text, refused_text, outcome_text, reply_text};

use crate::refused::{Layer, Refused};
use reference::Shown;
use std::alloc::AllocError;
use std::fmt;

// What came of a line. Each of the three is told by a word of its own, so it is no Result of an Option.
#[derive(Clone, Copy, PartialEq, Eq, Debug)]
pub enum Outcome {
    Done,
    Shown(Shown),
    Refused(Refused),
}

// The outcome of the line of this number; the first line is line 1.
#[derive(Clone, Copy, PartialEq, Eq, Debug)]
pub struct Reply {
    pub line: usize,
    pub outcome: Outcome,
}

impl fmt::Display for Layer {
    ghost output = { λ l. Some (layer_text l) };

    fn fmt<W: fmt::Write>(&self, f: &mut fmt::Formatter<W>) -> fmt::Result {
        match self {
            Layer::Script => write!(f, "script"),
            Layer::Panel => write!(f, "panel"),
            Layer::Shelf => write!(f, "shelf"),
        }
    }
}

impl fmt::Display for Refused {
    ghost output = { λ r. Some (refused_text r) };

    fn fmt<W: fmt::Write>(&self, f: &mut fmt::Formatter<W>) -> fmt::Result {
        let layer = self.layer();
        let number = self.number();
        let place = self.place();
        write!(f, "{layer}\t{number}\t{place}")
    }
}

impl fmt::Display for Outcome {
    ghost output = { λ o. Some (outcome_text o) };

    fn fmt<W: fmt::Write>(&self, f: &mut fmt::Formatter<W>) -> fmt::Result {
        match self {
            Outcome::Done => write!(f, "done"),
            Outcome::Shown(Shown { age, touched, laid }) => {
                write!(f, "frame\t{age}\t{touched}\t{laid}")
            }
            Outcome::Refused(refused) => write!(f, "refused\t{refused}"),
        }
    }
}

impl fmt::Display for Reply {
    ghost output = { λ r. Some (reply_text r) };

    fn fmt<W: fmt::Write>(&self, f: &mut fmt::Formatter<W>) -> fmt::Result {
        let Reply { line, outcome } = self;
        writeln!(f, "{line}\t{outcome}")
    }
}

// Writes a reply at the end of a text. Where memory runs out, the text stays as it was.
pub fn write_reply(text: &mut String, reply: Reply) -> Result<(), AllocError>
    ensures { string_bytes text.new ≡ (if is_ok result then string_bytes text.old ++ reply_text reply else string_bytes text.old) }
{
    let heap = *text.allocator();
    let line = format!(in heap; "{reply}")?;
    text.push_str(line.as_str())
}
