ghost use Rattle.std.specs.Prelude.{◌≡◌, ℕ, ◌≤◌, pos, ◌+ℤ◌};
ghost use Rattle.region.specs.Clipped.{held};
ghost use Rattle.region.specs.Lists.{list_of};
ghost use Rattle.reference.specs.Places.{shown_box};

use reference::Pane;
use region::{Display, Rect, Region, SignedRect};

// The place that lies `by` past a pane's edge. Past 1,024, where no display reaches, it is told as 1,024.
fn edge(from: i32, by: u32) -> i32
    ensures { (max : ℕ) → max ≤ 1024 → held result max ≡ held (from +ℤ pos by) max }
{
    let place = i64::from(from) + i64::from(by);
    // by `as`: proved to fit, so there is no error to answer
    place.min(1024) as i32
}

// The region of a box of a pane's surface: the box moved to the pane's place, and clipped to the display.
pub(crate) fn shown_box(display: &Display, pane: Pane, b: Rect) -> Region
    ensures { list_of result ≡ shown_box display.now.width display.now.height pane b }
{
    display.region_of(SignedRect {
        left: edge(pane.x, b.left),
        top: edge(pane.y, b.top),
        right: edge(pane.x, b.right),
        bottom: edge(pane.y, b.bottom),
    })
}
