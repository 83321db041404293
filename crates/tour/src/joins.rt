ghost use Rattle.std.specs.Prelude.{◌≡◌, List, [], ◌∷◌, ◌++◌};
ghost use Rattle.region_laws.specs.Boxes.{box};
ghost use Rattle.region_laws.specs.Joined.{single};
ghost use Rattle.region_laws.specs.Examples.{dots as dotted};
ghost use Rattle.region.specs.Lists.{list_of};

use region::{Display, Region, SignedRect};

// The region of a box, on the largest display.
fn boxed(left: u8, top: u8, right: u8, bottom: u8) -> Region
    ensures { list_of result ≡ single (box left top right bottom) }
{
    let display = Display {
        width: 1024,
        height: 1024,
    };
    display.region_of(SignedRect {
        left: i32::from(left),
        top: i32::from(top),
        right: i32::from(right),
        bottom: i32::from(bottom),
    })
}

// Two boxes that overlap.
pub(crate) fn overlap() -> Region
    ensures { list_of result ≡ box 0 0 4 1 ∷ box 0 1 6 2 ∷ box 2 2 6 3 ∷ [] }
{
    boxed(0, 0, 4, 2).join(&boxed(2, 1, 6, 3))
}

// Two boxes of one width, one right under the other.
pub(crate) fn under() -> Region
    ensures { list_of result ≡ box 0 0 2 2 ∷ [] }
{
    boxed(0, 0, 2, 1).join(&boxed(0, 1, 2, 2))
}

// The 32 single pixels of row 0 at x = 0, 2, .. 62, as many boxes as a region holds.
pub(crate) fn dots() -> Region
    ensures { list_of result ≡ dotted 32 }
{
    let mut all = Region::empty();
    for i in 0..32u8 {
        all = all.join(&boxed(2 * i, 0, 2 * i + 1, 1));
    }
    all
}

// These and pixel 64, which touches none of them.
pub(crate) fn crowded() -> Region
    ensures { list_of result ≡ box 0 0 65 1 ∷ [] }
{
    dots().join(&boxed(64, 0, 65, 1))
}

// These and pixel 63, which touches the last.
pub(crate) fn lengthened() -> Region
    ensures { list_of result ≡ dotted 31 ++ box 62 0 64 1 ∷ [] }
{
    dots().join(&boxed(63, 0, 64, 1))
}
