ghost use Rattle.std.specs.Prelude.{◌≡◌, length};
ghost use Rattle.chain.specs.Begins.{Begins, fitting};
ghost use Rattle.chain.specs.Told.{screens};
ghost use Rattle.chain.specs.declared.layout.Layout.TheVariants.{Rows};
ghost use Rattle.chains.specs.Kinds.{staying};

use crate::rule::Rule;
use crate::turning::Turning;
use chain::{Buffers, Layout, Pick, Shape};
use pixel::Pixel;

// Buffer 0 again and again.
#[derive(Clone, Copy)]
pub struct Stay;

impl Rule for Stay {
    ghost way = { staying };

    fn pick(&mut self, _back: u32) -> Pick {
        Pick {
            buffer: 0,
            forget: false,
        }
    }
}

// A chain of one buffer, which is written and seen at once.
pub type Single<'a, P> = Turning<'a, P, Stay>;

impl<'a, P: Pixel> Turning<'a, P, Stay> {
    // One buffer in a memory of exactly its length, else a chain with both sides 0.
    pub fn new(mem: &'a mut [P], width: u32, height: u32) -> Single<'a, P>
        ensures begins { Begins Rows mem.old (fitting 1 width height 1 (length mem.old)) width height 1 (screens result.buffers) }
        ensures kept { result.buffers.mem.now ≡ mem.old }
        ensures lends { result.buffers.mem.ghost_name ≡ mem.entry.ghost_name }
    {
        let shape = Shape {
            layout: Layout::Rows,
            width,
            height,
            count: 1,
        };
        Turning {
            buffers: Buffers::new(mem, shape, 1),
            rule: Stay,
        }
    }
}
