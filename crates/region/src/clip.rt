ghost use Rattle.std.specs.Prelude.{◌≡◌, ℕ, ◌<◌, ◌≤◌, Bool, true, false, ◌&&◌, List, [], ◌∷◌, MatchOption};
ghost use Rattle.region_laws.specs.Boxes.{inside, box};
ghost use Rattle.region_laws.specs.Bands.{covers};
ghost use Rattle.region_laws.specs.Joined.{single};
ghost use Rattle.region_laws.specs.Laws.{Same};
ghost use Rattle.region.specs.Clipped.{sized, within, shown, held, held_box, clipped, common};
ghost use Rattle.region.specs.Lists.{list_of};

use crate::display::Display;
use crate::region::Region;
use crate::signed_rect::SignedRect;
use region_laws::Rect;

// A signed edge, held to 0 .. max.
fn edge(v: i32, max: u32) -> u32
    ensures { result ≡ held v max }
{
    let most = i32::try_from(max).unwrap_or(i32::MAX);
    u32::try_from(v.clamp(0, most)).unwrap_or(0)
}

impl Display {
    // A display of this size, or none where a side is not 1 to 1,024.
    pub fn new(width: u32, height: u32) -> Option<Display>
        ensures { MatchOption result (sized width height ≡ false) (λ d. (d.width ≡ width) × (d.height ≡ height)) }
    {
        if (1..=1024).contains(&width) && (1..=1024).contains(&height) {
            return Some(Display { width, height });
        }
        None
    }

    // A box with its edges held to the display's.
    fn hold(&self, b: SignedRect) -> Rect
        ensures { result ≡ held_box self.now.width self.now.height b }
    {
        Rect {
            left: edge(b.left, self.width),
            top: edge(b.top, self.height),
            right: edge(b.right, self.width),
            bottom: edge(b.bottom, self.height),
        }
    }

    // The common box of a box and the display, or nothing where no pixel is common.
    #[tactic(auto, using(crate::proofs::Edges::common_held, region_laws::proofs::Smallest::nothing))]
    pub fn clip(&self, b: SignedRect) -> Option<Rect>
        ensures value { result ≡ clipped self.now.width self.now.height b }
        ensures pixels { MatchOption result ((x y : ℕ) → common self.now.width self.now.height b x y ≡ false)
            (λ c. Same (inside c) (common self.now.width self.now.height b)) }
    {
        let c = self.hold(b);
        if c.is_full() {
            return Some(c);
        }
        None
    }

    // The region of the pixels that a box and the display have in common.
    #[tactic(auto, using(crate::proofs::Edges::common_held, region_laws::proofs::Join::single_covers))]
    pub fn region_of(&self, b: SignedRect) -> Region
        ensures list { list_of result ≡ single (held_box self.now.width self.now.height b) }
        ensures pixels { Same (covers (list_of result)) (common self.now.width self.now.height b) }
    {
        Region::single(self.hold(b))
    }

    // The region of all its pixels.
    pub fn whole(&self) -> Region
        ensures list { list_of result ≡ box 0 0 self.now.width self.now.height ∷ [] }
        ensures pixels { Same (covers (list_of result)) (shown self.now.width self.now.height) }
    {
        Region::single(Rect::of_size(self.width, self.height))
    }
}
