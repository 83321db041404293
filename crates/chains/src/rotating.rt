ghost use Rattle.std.specs.Prelude.{◌≡◌, length};
ghost use Rattle.chain.specs.Begins.{Begins, fitting};
ghost use Rattle.chain.specs.Told.{screens};
ghost use Rattle.chain.specs.declared.layout.Layout.TheVariants.{Rows};
ghost use Rattle.chains.specs.Kinds.{rotating};

use crate::rule::Rule;
use crate::turning::Turning;
use chain::{Buffers, Layout, Pick, Shape};
use pixel::Pixel;

// Each buffer in turn.
#[derive(Clone, Copy)]
pub struct Rotate;

impl Rule for Rotate {
    ghost way = { rotating };

    // The next buffer; a chain takes it modulo the number of its buffers.
    #[tactic(auto, using(crate::proofs::Next::next_mod))]
    fn pick(&mut self, back: u32) -> Pick {
        Pick {
            buffer: back.wrapping_add(1),
            forget: false,
        }
    }
}

// A chain of 2 to 4 buffers that are the back in turn.
pub type Rotating<'a, P> = Turning<'a, P, Rotate>;

impl<'a, P: Pixel> Turning<'a, P, Rotate> {
    // 2 to 4 buffers in a memory of exactly their length, else a chain with both sides 0.
    pub fn new(mem: &'a mut [P], width: u32, height: u32, count: u32) -> Rotating<'a, P>
        ensures begins { Begins Rows mem.old (fitting 2 width height count (length mem.old)) width height count (screens result.buffers) }
        ensures kept { result.buffers.mem.now ≡ mem.old }
        ensures lends { result.buffers.mem.ghost_name ≡ mem.entry.ghost_name }
    {
        let shape = Shape {
            layout: Layout::Rows,
            width,
            height,
            count,
        };
        Turning {
            buffers: Buffers::new(mem, shape, 2),
            rule: Rotate,
        }
    }
}
