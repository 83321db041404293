ghost use Rattle.std.specs.Prelude.{◌≡◌, ◌*◌, ◌<◌, ◌≤◌, ◌==◌};
ghost use Rattle.chain.specs.Begins.{side};
ghost use Rattle.chain.specs.Places.{spot};
ghost use Rattle.chain.specs.Shapes.{Small, fits, room};

use crate::layout::Layout;

// How many buffers a chain has, of which sides, and in which order their pixels lie. The numbers are any that a caller
// gives, so that they are small is no part of the type; of a chain that is made it is.
#[derive(Clone, Copy)]
pub struct Shape {
    pub layout: Layout,
    pub width: u32,
    pub height: u32,
    pub count: u32,
}

// Is this a side of a display?
fn is_side(pixels: u32) -> bool
    ensures { result ≡ side pixels }
{
    (1..=1024).contains(&pixels)
}

impl Shape {
    // Do `least` to 4 buffers of this shape fill a memory of `len` pixels exactly?
    pub(crate) fn fits(&self, least: u32, len: usize) -> bool
        ensures { result ≡ fits least self.now len }
    {
        least >= 1
            && (least..=4).contains(&self.count)
            && is_side(self.width)
            && is_side(self.height)
            && self.is_exact(len)
    }

    // The pixels of one buffer. Rust has no `From<u32>` for `usize`, so that sizes and buffers' numbers widen by `as`.
    pub(crate) fn size(&self) -> usize
        requires { Small self.now }
        ensures { result ≡ self.now.width * self.now.height }
    {
        (self.width * self.height) as usize
    }

    // Has a memory of `len` pixels the length that the buffers need?
    pub(crate) fn is_exact(&self, len: usize) -> bool
        requires small { Small self.now }
        requires few { self.now.count ≤ 4 }
        ensures { result ≡ (len == room self.now) }
    {
        len == self.count as usize * self.size()
    }

    // Where a pixel lies in its buffer.
    #[tactic(auto, using(crate::proofs::ByRows::by_rows))]
    pub(crate) fn spot(&self, x: u32, y: u32) -> usize
        requires small { Small self.now }
        requires within { (x < self.now.width) × (y < self.now.height) }
        ensures below { result < self.now.width * self.now.height }
        ensures is { result ≡ spot self.now.layout self.now.width self.now.height x y }
    {
        match self.layout {
            Layout::Rows => (y * self.width + x) as usize,
        }
    }
}
