// Pixels as text.
ghost use Rattle.std.specs.Prelude.{◌≡◌, ◌/◌, ◌%◌, ◌<◌, [], ◌∷◌, ◌++◌, is_ok, IfOk, OnOk, if◌then◌else◌, string_bytes};
ghost use Rattle.replies.specs.Replies.{hex_digit, hex_text, row_text};

use std::alloc::{AllocError, Global};

// A hexadecimal digit, in lower case.
fn digit(n: u8) -> char
    requires { n < 16 }
    ensures value { result ≡ hex_digit n }
    ensures ascii { result < 128 }
{
    if n < 10 {
        (b'0' + n) as char
    } else {
        (b'a' + (n - 10)) as char
    }
}

// Writes a pixel at the end of a text: two hexadecimal digits, in lower case. (By two pushes: a format of each pixel took
// nearly twice the time.)
fn write_pixel(text: &mut String, pixel: u8) -> Result<(), AllocError>
    ensures { OnOk result (string_bytes text.new ≡ string_bytes text.old ++ hex_digit (pixel / 16) ∷ hex_digit (pixel % 16) ∷ []) }
{
    text.push(digit(pixel / 16))?;
    text.push(digit(pixel % 16))
}

// Two hexadecimal digits for each pixel.
fn digits(heap: Global, pixels: &[u8]) -> Result<String, AllocError>
    ensures { IfOk result (λ t. string_bytes t ≡ hex_text pixels.now) }
{
    let mut text = String::new(heap);
    for p in pixels {
        write_pixel(&mut text, *p)?;
    }
    Ok(text)
}

// Writes a row of pixels at the end of a text: two hexadecimal digits each, in lower case, and a line feed.
// Where memory runs out, the text stays as it was.
pub fn write_row(text: &mut String, pixels: &[u8]) -> Result<(), AllocError>
    ensures { string_bytes text.new ≡ (if is_ok result then string_bytes text.old ++ row_text pixels.now else string_bytes text.old) }
{
    let heap = *text.allocator();
    let mut row = digits(heap, pixels)?;
    row.push('\n')?;
    text.push_str(row.as_str())
}
