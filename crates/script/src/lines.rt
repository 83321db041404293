// The lines of a script.
ghost use Rattle.std.specs.Prelude.{◌≡◌, ℕ, ◌+◌, ◌-◌, ◌<◌, ◌≤◌, length};
ghost use Rattle.script.specs.Lines.{line, lines_after};

use crate::parting::cut;

// A script's first line, without its line feed, and what comes after that.
pub fn first_line<'a>(script: &'a [u8]) -> (&'a [u8], &'a [u8])
    ensures front { result.0.now ≡ line script.now }
    ensures back { result.1.now ≡ lines_after script.now }
    ensures shorter { length result.1.now ≤ length script.now - 1 }
{
    let (line, rest) = cut(b'\n', script);
    (line, rest.unwrap_or(&[]))
}
