// A field of a line, or the line's end. A token borrows its bytes of the script and, in each of the fixed cases, has its
// place and its line.
#[derive(Clone, Copy, PartialEq, Eq, Debug)]
pub enum Token<'a> {
    // the first field
    Word {
        bytes: &'a [u8],
        place: usize,
        line: usize,
    },
    // a later field, where a number is to stand
    Number {
        bytes: &'a [u8],
        place: usize,
        line: usize,
    },
    // no field is left; place is the number that the next would have
    End {
        place: usize,
        line: usize,
    },
}
