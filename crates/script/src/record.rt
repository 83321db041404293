// The records of a script.
ghost use Rattle.std.specs.Prelude.{◌≡◌};
ghost use Rattle.script.specs.Tokens.{token, step};
ghost use Rattle.script.specs.Records.{as_verb, as_number, as_end, numbers_of, record_from, parsed};

use crate::lexer::Lexer;
use crate::number::read_number;
use crate::token::Token;
use crate::verb::Verb;
use reference::Call;
use replies::Refused;
use surface::Order;

// The fields of an open, as they are written.
#[derive(Clone, Copy, PartialEq, Eq, Debug)]
pub struct Opening {
    pub width: i32,
    pub height: i32,
    pub base: i32,
    pub chain: i32,
}

// A line of a script, read.
#[derive(Clone, Copy, PartialEq, Eq, Debug)]
pub enum Record {
    Open(Opening),
    Call(Call),
}

// The verb of a line.
fn verb_of(fields: &mut Lexer) -> Result<Verb, Refused>
    ensures value { result ≡ as_verb (token fields.old) }
    ensures after { fields.new ≡ step fields.old }
{
    match fields.next() {
        Token::Word { bytes, place, .. } => Verb::read(bytes).ok_or(Refused::NotARecord { place }),
        Token::Number { place, .. } | Token::End { place, .. } => Err(Refused::NotARecord {
            place,
        }),
    }
}

// The number that comes next.
fn next_number(fields: &mut Lexer) -> Result<i32, Refused>
    ensures value { result ≡ as_number (token fields.old) }
    ensures after { fields.new ≡ step fields.old }
{
    match fields.next() {
        Token::Number { bytes, place, .. } => {
            read_number(bytes).ok_or(Refused::NotARecord { place })
        }
        Token::Word { place, .. } | Token::End { place, .. } => Err(Refused::NotARecord { place }),
    }
}

// No field is left.
fn end(fields: &mut Lexer) -> Result<(), Refused>
    ensures { result ≡ as_end (token fields.old) }
{
    match fields.next() {
        Token::Word { place, .. } | Token::Number { place, .. } => {
            Err(Refused::NotARecord { place })
        }
        Token::End { .. } => Ok(()),
    }
}

// As many numbers as are asked for, and then the line's end.
fn numbers<const N: usize>(fields: &mut Lexer) -> Result<[i32; N], Refused>
    ensures { result ≡ numbers_of N fields.old }
{
    let mut numbers = [0; N];
    for number in numbers.iter_mut() {
        *number = next_number(fields)?;
    }
    end(fields)?;
    Ok(numbers)
}

// The record that a verb begins: its numbers, and then the line's end.
fn rest_of_record(verb: Verb, fields: &mut Lexer) -> Result<Record, Refused>
    ensures { result ≡ record_from fields.old verb }
{
    match verb {
        Verb::Open => {
            let [width, height, base, chain] = numbers::<4>(fields)?;
            Ok(Record::Open(Opening {
                width,
                height,
                base,
                chain,
            }))
        }
        Verb::Place => {
            let [surface, x, y] = numbers::<3>(fields)?;
            Ok(Record::Call(Call::Place { surface, x, y }))
        }
        Verb::Move => {
            let [surface, x, y] = numbers::<3>(fields)?;
            Ok(Record::Call(Call::Move { surface, x, y }))
        }
        Verb::Lift => {
            let [surface, under] = numbers::<2>(fields)?;
            Ok(Record::Call(Call::Lift { surface, under }))
        }
        Verb::Remove => {
            let [surface] = numbers::<1>(fields)?;
            Ok(Record::Call(Call::Remove { surface }))
        }
        Verb::Tell => {
            let [surface, act, a, b] = numbers::<4>(fields)?;
            let order = Order { act, a, b };
            Ok(Record::Call(Call::Tell { surface, order }))
        }
        Verb::Show => end(fields).map(|()| Record::Call(Call::Show)),
    }
}

// Reads a line, whose number in the script is `number`.
pub fn read_record(line: &[u8], number: usize) -> Result<Record, Refused>
    ensures { result ≡ parsed number line.now }
{
    let mut fields = Lexer::new(line, number);
    let verb = verb_of(&mut fields)?;
    rest_of_record(verb, &mut fields)
}
