// The numbers of a script.
ghost use Rattle.std.specs.Prelude.{◌≡◌, pos};
ghost use Rattle.std.specs.Option.{option_map};
ghost use Rattle.script.specs.Numbers.{magnitude_of, number_of};

// The number that 1 to 10 digits write. (`parse` would take a plus sign too.)
fn magnitude(digits: &[u8]) -> Option<i64>
    ensures { result ≡ option_map pos (magnitude_of digits.now) }
{
    if digits.is_empty() || digits.len() > 10 {
        return None;
    }
    let mut n: i64 = 0;
    for b in digits {
        if !b.is_ascii_digit() {
            return None;
        }
        n = n * 10 + i64::from(*b - b'0');
    }
    Some(n)
}

// The number that a field writes within 32 signed bits, if it writes one.
pub(crate) fn read_number(field: &[u8]) -> Option<i32>
    ensures { result ≡ number_of field.now }
{
    match field {
        [b'-', digits @ ..] => i32::try_from(-magnitude(digits)?).ok(),
        _ => i32::try_from(magnitude(field)?).ok(),
    }
}
