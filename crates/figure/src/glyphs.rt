ghost use Rattle.std.specs.Prelude.{◌≡◌, ◌<◌};
ghost use Rattle.figure.specs.Characters.{glyph};
ghost use Rattle.figure.specs.Glyphs.{bits};

use crate::character::Character;

// One row of a glyph: three bits, the bit of value 4 leftmost, 1 meaning ink.
#[derive(Clone, Copy)]
struct Row {
    bits: u8,
}

// The glyphs of the digits, of the minus and of the blank, each five rows from the top.
const GLYPHS: [[Row; 5]; 12] = [
    // 0
    [
        Row { bits: 7 },
        Row { bits: 5 },
        Row { bits: 5 },
        Row { bits: 5 },
        Row { bits: 7 },
    ],
    // 1
    [
        Row { bits: 2 },
        Row { bits: 6 },
        Row { bits: 2 },
        Row { bits: 2 },
        Row { bits: 7 },
    ],
    // 2
    [
        Row { bits: 7 },
        Row { bits: 1 },
        Row { bits: 7 },
        Row { bits: 4 },
        Row { bits: 7 },
    ],
    // 3
    [
        Row { bits: 7 },
        Row { bits: 1 },
        Row { bits: 7 },
        Row { bits: 1 },
        Row { bits: 7 },
    ],
    // 4
    [
        Row { bits: 5 },
        Row { bits: 5 },
        Row { bits: 7 },
        Row { bits: 1 },
        Row { bits: 1 },
    ],
    // 5
    [
        Row { bits: 7 },
        Row { bits: 4 },
        Row { bits: 7 },
        Row { bits: 1 },
        Row { bits: 7 },
    ],
    // 6
    [
        Row { bits: 7 },
        Row { bits: 4 },
        Row { bits: 7 },
        Row { bits: 5 },
        Row { bits: 7 },
    ],
    // 7
    [
        Row { bits: 7 },
        Row { bits: 1 },
        Row { bits: 1 },
        Row { bits: 1 },
        Row { bits: 1 },
    ],
    // 8
    [
        Row { bits: 7 },
        Row { bits: 5 },
        Row { bits: 7 },
        Row { bits: 5 },
        Row { bits: 7 },
    ],
    // 9
    [
        Row { bits: 7 },
        Row { bits: 5 },
        Row { bits: 7 },
        Row { bits: 1 },
        Row { bits: 7 },
    ],
    // the minus
    [
        Row { bits: 0 },
        Row { bits: 0 },
        Row { bits: 7 },
        Row { bits: 0 },
        Row { bits: 0 },
    ],
    // the blank
    [
        Row { bits: 0 },
        Row { bits: 0 },
        Row { bits: 0 },
        Row { bits: 0 },
        Row { bits: 0 },
    ],
];

// The bits of one row of a character's glyph.
pub(crate) fn row_bits(c: Character, row: usize) -> u8
    requires { (glyph c < 12) × (row < 5) }
    ensures { result ≡ bits c row }
{
    let i = match c {
        Character::Digit(d) => usize::from(d),
        Character::Minus => 10,
        Character::Blank => 11,
    };
    GLYPHS[i][row].bits
}
