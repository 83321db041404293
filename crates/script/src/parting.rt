// Parts a text at a byte.
ghost use Rattle.std.specs.Prelude.{◌≡◌, ◌∷◌};
ghost use Rattle.std.specs.Option.{option_map};
ghost use Rattle.script.specs.Parting.{front, rest, parts, parts_after};

// The first part of a text, and what comes after the byte that ends it, if one does.
pub(crate) fn cut<'a>(sep: u8, text: &'a [u8]) -> (&'a [u8], Option<&'a [u8]>)
    ensures first { result.0.now ≡ front sep text.now }
    ensures then { option_map (λ x. x.now) result.1 ≡ rest sep text.now }
    ensures parted { parts sep text.now ≡ result.0.now ∷ parts_after sep (option_map (λ x. x.now) result.1) }
{
    match text.iter().position(|b| *b == sep) {
        Some(n) => (&text[..n], Some(&text[n + 1..])),
        None => (text, None),
    }
}
