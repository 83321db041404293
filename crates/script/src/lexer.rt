// Cuts a line into its fields.
ghost use Rattle.std.specs.Prelude.{◌≡◌};
ghost use Rattle.std.specs.Option.{option_map};
ghost use Rattle.script.specs.Parting.{parts_after};
ghost use Rattle.script.specs.Tokens.{State, said, token, start, step};

use crate::parting::cut;
use crate::token::Token;
use std::marker::Model;

// What is left of a line: `rest` is there while a field is to come, perhaps an empty one.
#[derive(Drop)]
pub struct Lexer<'a> {
    rest: Option<&'a [u8]>,
    place: usize,
    line: usize,
}

// A contract sees where it stands: the fields to come, the number of the next of them, and the line's number.
impl<'a> Model for Lexer<'a> {
    ghost Value = { State };

    ghost view = { λ l. record { fields = parts_after 9 (option_map (λ x. x.now) l.rest); place = l.place; line = l.line } };
}

impl<'a> Lexer<'a> {
    // A lexer at the start of a line, whose number in the script is `line`.
    pub fn new(text: &'a [u8], line: usize) -> Lexer<'a>
        ensures { result ≡ start text.now line }
    {
        Lexer {
            rest: Some(text),
            place: 0,
            line,
        }
    }

    // The next token. After the end it answers the end again.
    pub fn next(&mut self) -> Token<'a>
        ensures gives { said result ≡ token self.old }
        ensures after { self.new ≡ step self.old }
    {
        let place = self.place;
        let line = self.line;
        let Some(text) = self.rest else {
            return Token::End { place, line };
        };
        let (bytes, rest) = cut(b'\t', text);
        self.rest = rest;
        self.place = place.saturating_add(1);
        if place == 0 {
            Token::Word { bytes, place, line }
        } else {
            Token::Number { bytes, place, line }
        }
    }
}
