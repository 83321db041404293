ghost use Rattle.std.specs.Prelude.{◌≡◌, nat_eq};
ghost use Rattle.pixel.specs.Index.{laid, hidden};
ghost use Rattle.std.proofs.Common.{rules};

use crate::pixel::Pixel;

// The index kind: a byte that numbers a colour, of which 0 is no colour and shows what lies below.
impl Pixel for u8 {
    ghost lay = { laid };

    ghost solid = { hidden };

    ghost equal = { nat_eq };

    ghost hides = { Prim.search rules };

    ghost alike = { Prim.search rules };

    ghost itself = { Prim.search rules };

    fn over(self, below: u8) -> u8 {
        if self == 0 { below } else { self }
    }

    fn is_solid(self) -> bool {
        self != 0
    }

    fn same(self, other: u8) -> bool {
        self == other
    }
}
