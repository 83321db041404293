ghost use Rattle.std.specs.Prelude.{◌≡◌, ◌≤◌, true, List, []};
ghost use Rattle.region_laws.specs.Boxes.{full};
ghost use Rattle.region_laws.specs.Bands.{banded as all_banded};
ghost use Rattle.region_laws.specs.Joined.{single as single_box};
ghost use Rattle.region.specs.Lists.{list_of};
ghost use Rattle.region.specs.Making.{pile_of};

use crate::pile::Pile;
use crate::region::Region;
use region_laws::Rect;

impl Region {
    // The region of no pixel.
    pub fn empty() -> Region
        ensures { list_of result ≡ [] }
    {
        Region {
            boxes: [Rect::NONE; 32],
            count: 0,
        }
    }

    // The region of one box, or the empty one where it covers nothing.
    pub(crate) fn single(b: Rect) -> Region
        requires { full b ≡ true → (b.right ≤ 1024) × (b.bottom ≤ 1024) }
        ensures { list_of result ≡ single_box b }
    {
        if !b.is_full() {
            return Region::empty();
        }
        let mut boxes = [Rect::NONE; 32];
        boxes[0] = b;
        Region { boxes, count: 1 }
    }

    // The region that was made from the top down.
    pub(crate) fn made(p: Pile) -> Region
        requires { all_banded (pile_of p) ≡ true }
        ensures { list_of result ≡ pile_of p }
    {
        let boxes = p.boxes;
        Region {
            boxes,
            count: p.count,
        }
    }
}
