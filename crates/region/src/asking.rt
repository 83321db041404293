ghost use Rattle.std.specs.Prelude.{◌≡◌, ℕ, ◌≤◌, Bool, true, List, [], length, Decides};
ghost use Rattle.region_laws.specs.Boxes.{inside, Smallest};
ghost use Rattle.region_laws.specs.Bands.{covers as has_pixel, banded as all_banded};
ghost use Rattle.region_laws.specs.Rules.{Rules, Banding};
ghost use Rattle.region_laws.specs.Joined.{cover};
ghost use Rattle.region_laws.specs.Counted.{area as area_of};
ghost use Rattle.region_laws.specs.Laws.{Same, OneList, EverySet, EachOnce, Counts, StaysIn};
ghost use Rattle.region.specs.Lists.{list_of};

use crate::bands::Bands;
use crate::cover::covering;
use crate::region::Region;
use region_laws::Rect;

// Whether one of several boxes covers a pixel.
fn some_covers(bs: &[Rect], x: u32, y: u32) -> bool
    ensures { result ≡ has_pixel bs.now x y }
{
    bs.iter().any(|b| b.covers(x, y))
}

impl Region {
    // Its boxes, from the top down and in a band from left to right.
    pub fn boxes(&self) -> &[Rect]
        ensures list { result.now ≡ list_of self.now }
        ensures few { length result.now ≤ 32 }
        ensures rules { Rules (list_of self.now) }
        ensures banding { Banding }
        ensures within { StaysIn (list_of self.now) }
        ensures each_once { EachOnce (list_of self.now) }
    {
        &self.boxes[..self.count]
    }

    // The same, to be swept.
    pub(crate) fn bands(&self) -> Bands<'_>
        ensures { result.boxes.now ≡ list_of self.now }
    {
        let boxes = self.boxes();
        Bands { boxes }
    }

    // Whether it covers the pixel (x, y).
    pub fn covers(&self, x: u32, y: u32) -> bool
        ensures { result ≡ has_pixel (list_of self.now) x y }
    {
        some_covers(self.boxes(), x, y)
    }

    // The number of its pixels.
    #[tactic(auto, using(region_laws::proofs::Counts::counts))]
    pub fn area(&self) -> u32
        ensures sum { result ≡ area_of (list_of self.now) }
        ensures counts { Counts (list_of self.now) }
    {
        self.bands().area()
    }

    // The smallest box over it; (0, 0, 0, 0) for the empty region, as `Smallest` says.
    pub fn extents(&self) -> Rect
        ensures value { result ≡ cover (list_of self.now) }
        ensures smallest { Smallest (has_pixel (list_of self.now)) result }
    {
        covering(Rect::NONE, self.boxes())
    }

    // Whether two regions are the same set of pixels, and so the same list: what their derived equality means.
    #[tactic(auto, using(crate::proofs::Same::same_boxes, crate::proofs::Same::boxes_same, crate::proofs::Same::boxes_from_list, crate::proofs::Same::count_from_list, crate::proofs::Same::list_from_pixels))]
    pub fn same(&self, other: &Region) -> bool
        ensures lists { Decides result (list_of self.now ≡ list_of other.now) }
        ensures sets { Decides result (Same (has_pixel (list_of self.now)) (has_pixel (list_of other.now))) }
        ensures one_list { OneList }
        ensures every_set { EverySet }
    {
        self == other
    }
}
