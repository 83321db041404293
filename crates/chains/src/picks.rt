ghost use Rattle.std.specs.Prelude.{◌≡◌, ◌<◌};

use crate::rule::Rule;
use chain::Pick;

// The digits of a number, four bits each, used lowest first and round again.
#[derive(Clone, Copy)]
pub struct Picks {
    pub(crate) number: u64,
    // which digit is next
    pub(crate) at: u32,
    ghost within: { at < 16 },
}

impl Picks {
    pub(crate) fn new(number: u64) -> Picks
        ensures { (result.number ≡ number) × (result.at ≡ 0) }
    {
        Picks { number, at: 0 }
    }
}

// A digit modulo 4 is the buffer, which is forgotten if the digit is 8 or more.
impl Rule for Picks {
    ghost use Rattle.chains.specs.Kinds.{by_digits};

    ghost way = { by_digits };

    fn pick(&mut self, _back: u32) -> Pick {
        // by `as`: below 16, so there is no error to answer
        let digit = ((self.number >> (4 * self.at)) % 16) as u32;
        self.at = if self.at == 15 { 0 } else { self.at + 1 };
        Pick {
            buffer: digit % 4,
            forget: digit >= 8,
        }
    }
}
