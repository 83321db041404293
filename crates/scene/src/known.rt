ghost use Rattle.std.specs.Prelude.{◌≡◌};
ghost use Rattle.reference.specs.Stack.{pane as pane_of};

use reference::Pane;
use region_laws::Rect;

// A surface that the shelf has and that is not closed: its number, and the box of the whole of it.
#[derive(Clone, Copy, PartialEq, Eq, Debug)]
pub struct Known {
    pub number: u32,
    pub whole: Rect,
}

impl Known {
    // Its pane at a place.
    pub(crate) fn pane(self, x: i32, y: i32) -> Pane
        ensures { result ≡ pane_of self.number x y }
    {
        Pane {
            surface: self.number,
            x,
            y,
        }
    }
}
