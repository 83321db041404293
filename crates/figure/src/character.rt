ghost use Rattle.std.specs.Prelude.{◌≡◌, ◌<◌, is_some, IfSome};
ghost use Rattle.figure.specs.Characters.{in_cell, in_range, glyph, Shows};

use crate::reading::Reading;

// What one cell of a figure shows.
#[derive(Clone, Copy, PartialEq, Eq, Debug)]
pub enum Character {
    Digit(u8),
    Minus,
    Blank,
}

impl Reading {
    // The number, if four characters can show it; None says all that there is to say of another, so this is no TryFrom.
    pub fn new(value: i32) -> Option<Reading>
        ensures fits { is_some result ≡ in_range value }
        ensures kept { IfSome result (λ v. v.value ≡ value) }
    {
        if (-999..=9999).contains(&value) {
            Some(Reading { value })
        } else {
            None
        }
    }

    // The four characters that show the number, from the left.
    #[tactic(auto, using(crate::proofs::Digits::shows))]
    pub fn characters(self) -> [Character; 4]
        ensures { Shows self.value result }
    {
        [self.cell(0), self.cell(1), self.cell(2), self.cell(3)]
    }

    // The character in cell i, counted from 0 at the left; past the fourth cell it is that of the fourth.
    pub(crate) fn cell(self, i: u32) -> Character
        ensures shows { result ≡ in_cell self.value i }
        ensures known { glyph result < 12 }
    {
        let n = self.value.unsigned_abs();
        let weight = match i {
            0 => 1000,
            1 => 100,
            2 => 10,
            _ => 1,
        };
        // a digit is narrowed by `as`: below 10, so there is no error to answer
        if weight <= n || i >= 3 {
            Character::Digit((n / weight % 10) as u8)
        } else if self.value < 0 && (weight <= n * 10 || i == 2) {
            Character::Minus
        } else {
            Character::Blank
        }
    }
}
