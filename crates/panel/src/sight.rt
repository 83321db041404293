ghost use Rattle.std.specs.Prelude.{◌≡◌};
ghost use Rattle.panel.specs.Tallies.{added};

use arrayvec::ArrayVec;
use reference::Pane;
use region::Rect;

// A place of a surface.
#[derive(Clone, Copy)]
pub struct Spot {
    pub x: u32,
    pub y: u32,
}

// What a show has to know of a pane beside its pixels, asked once: the box of its whole surface, and its solid box.
#[derive(Clone, Copy, Default)]
pub struct Sight {
    pub pane: Pane,
    pub whole: Rect,
    pub solid: Rect,
}

// The sights of a stack, bottom first.
#[derive(Drop)]
pub struct Sights {
    pub all: ArrayVec<Sight, 16>,
}

// Where painting a place begins, and how many panes cover it from the top down to there.
#[derive(Clone, Copy)]
pub struct Descent {
    pub from: usize,
    pub laid: u32,
}

// The pixel of a place, and how many panes were laid for it.
#[derive(Clone, Copy)]
pub struct Composed<P> {
    pub pixel: P,
    pub laid: u32,
}

// How many pixels were painted, and how many panes were laid for them.
#[derive(Clone, Copy)]
pub struct Tally {
    pub touched: u32,
    pub laid: u32,
}

impl Tally {
    // Of no pixel.
    pub const NONE: Tally = Tally {
        touched: 0,
        laid: 0,
    };

    // Adds the tally of a part, up to the greatest number that fits.
    pub(crate) fn add(&mut self, part: Tally)
        ensures { self.new ≡ added self.old part }
    {
        self.touched = self.touched.saturating_add(part.touched);
        self.laid = self.laid.saturating_add(part.laid);
    }
}
