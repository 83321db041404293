ghost use Rattle.std.specs.Prelude.{◌≡◌};
ghost use Rattle.region_laws.specs.Boxes.{box, inside, full};

// A box of pixels: those with left <= x < right and top <= y < bottom, x counted to the right and y down, from 0.
#[derive(Clone, Copy, PartialEq, Eq, Debug, Default)]
pub struct Rect {
    pub left: u32,
    pub top: u32,
    pub right: u32,
    pub bottom: u32,
}

impl Rect {
    // How a box that covers no pixel is told.
    pub const NONE: Rect = Rect {
        left: 0,
        top: 0,
        right: 0,
        bottom: 0,
    };

    // The box of this size whose corner is at (0, 0).
    pub fn of_size(width: u32, height: u32) -> Rect
        ensures { result ≡ box 0 0 width height }
    {
        Rect {
            left: 0,
            top: 0,
            right: width,
            bottom: height,
        }
    }

    // Whether it covers a pixel at all.
    pub fn is_full(self) -> bool
        ensures { result ≡ full self }
    {
        self.left < self.right && self.top < self.bottom
    }

    // Whether it covers the pixel (x, y).
    pub fn covers(self, x: u32, y: u32) -> bool
        ensures { result ≡ inside self x y }
    {
        self.left <= x && x < self.right && self.top <= y && y < self.bottom
    }
}
