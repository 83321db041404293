ghost use Rattle.std.specs.Prelude.{◌≡◌, ◌≤◌, true, length};
ghost use Rattle.region_laws.specs.Bands.{banded as all_banded};
ghost use Rattle.region_laws.specs.Counted.{area as area_of};

use region_laws::Rect;

// The boxes of a region, lent to a sweep that goes down their bands.
#[derive(Clone, Copy)]
pub struct Bands<'a> {
    pub boxes: &'a [Rect],
    ghost banded: { all_banded boxes.now ≡ true },
    ghost few: { length boxes.now ≤ 32 },
}

impl Bands<'_> {
    // The number of pixels.
    pub(crate) fn area(&self) -> u32
        ensures { result ≡ area_of self.now.boxes.now }
    {
        let mut n = 0;
        for b in self.boxes {
            n += (b.right - b.left) * (b.bottom - b.top);
        }
        n
    }
}
