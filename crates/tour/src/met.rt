ghost use Rattle.std.specs.Prelude.{◌≡◌, List, [], ◌∷◌};

use chains::{Picking, Rotating, meet_ages};

// The ages that five shows meet on a rotating chain of 3.
pub(crate) fn rotating() -> [u8; 5]
    ensures { result ≡ 0 ∷ 0 ∷ 0 ∷ 3 ∷ 3 ∷ [] }
{
    let mut mem = [0u8; 3];
    let mut ages = [0u8; 5];
    let mut chain = Rotating::new(&mut mem, 1, 1, 3);
    meet_ages(&mut chain, &mut ages);
    ages
}

// The ages that four shows meet on a picking chain of 2 with the number 9.
pub(crate) fn picking() -> [u8; 4]
    ensures { result ≡ 0 ∷ 0 ∷ 2 ∷ 1 ∷ [] }
{
    let mut mem = [0u8; 2];
    let mut ages = [0u8; 4];
    let mut chain = Picking::new(&mut mem, 1, 1, 2, 9);
    meet_ages(&mut chain, &mut ages);
    ages
}
