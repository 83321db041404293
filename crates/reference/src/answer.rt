ghost use Rattle.std.specs.Prelude.{◌≡◌};
ghost use Rattle.reference.specs.Answers.{said, said_of};

use crate::refusal::Refusal;
use region_laws::Rect;

// What a show answers.
#[derive(Clone, Copy, PartialEq, Eq, Debug)]
pub struct Shown {
    // the age of the buffer that it painted
    pub age: u8,
    // how many pixels it wrote: the area of the stated region
    pub touched: u32,
    // over these pixels, how many panes cover each, from the top down to the first whose solid box covers it
    pub laid: u32,
}

// What a call of the panel answered, as it is kept in a list: one case for each kind of answer. The calls themselves
// answer a Result, but for show, which is never refused.
#[derive(Clone, Copy, PartialEq, Eq, Debug)]
pub enum Answer {
    Done,
    // an order was taken, and damaged this box of its surface
    Damaged(Rect),
    Shown(Shown),
    Refused(Refusal),
}

// Of a call on the stack.
impl From<Result<(), Refusal>> for Answer {
    ghost from_gives = { λ outcome answer. answer ≡ said outcome };

    fn from(outcome: Result<(), Refusal>) -> Answer {
        outcome.map_or_else(Answer::Refused, |()| Answer::Done)
    }
}

// Of a tell.
impl From<Result<Rect, Refusal>> for Answer {
    ghost from_gives = { λ outcome answer. answer ≡ said_of outcome };

    fn from(outcome: Result<Rect, Refusal>) -> Answer {
        outcome.map_or_else(Answer::Refused, Answer::Damaged)
    }
}
