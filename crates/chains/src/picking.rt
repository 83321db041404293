ghost use Rattle.std.specs.Prelude.{◌≡◌, length};
ghost use Rattle.chain.specs.Begins.{Begins, fitting};
ghost use Rattle.chain.specs.Told.{screens};
ghost use Rattle.chain.specs.declared.layout.Layout.TheVariants.{Rows};
ghost use Rattle.chains.specs.Digits.{spelled};

use crate::picks::Picks;
use crate::turning::Turning;
use chain::{Buffers, Layout, Shape};
use pixel::Pixel;

// A chain of 2 to 4 buffers that are picked, and perhaps forgotten, by the digits of a number.
pub type Picking<'a, P> = Turning<'a, P, Picks>;

impl<'a, P: Pixel> Turning<'a, P, Picks> {
    // 2 to 4 buffers in a memory of exactly their length, else a chain with both sides 0; and the number whose sixteen
    // digits pick.
    pub fn new(mem: &'a mut [P], width: u32, height: u32, count: u32, picks: u64) -> Picking<'a, P>
        ensures begins { Begins Rows mem.old (fitting 2 width height count (length mem.old)) width height count (screens result.buffers) }
        ensures picks { (result.rule.number ≡ picks) × (result.rule.at ≡ 0) }
        ensures spelled { spelled picks 16 ≡ picks }
        ensures kept { result.buffers.mem.now ≡ mem.old }
        ensures lends { result.buffers.mem.ghost_name ≡ mem.entry.ghost_name }
    {
        let shape = Shape {
            layout: Layout::Rows,
            width,
            height,
            count,
        };
        Turning {
            buffers: Buffers::new(mem, shape, 2),
            rule: Picks::new(picks),
        }
    }
}
