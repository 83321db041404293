ghost use Rattle.std.specs.Prelude.{◌≡◌, ◌&&◌, length, if◌then◌else◌, Some, None, slice_set};
ghost use Rattle.chain.specs.Screens.{inside, on_display};
ghost use Rattle.chain.specs.Writes.{written, WriteIsFunction};
ghost use Rattle.chain.specs.Swaps.{TurnSwaps, TurnIsFunction};
ghost use Rattle.chain.specs.Begins.{BeginIsFunction};
ghost use Rattle.chain.specs.Places.{place};
ghost use Rattle.chain.specs.Shapes.{fits};
ghost use Rattle.chain.specs.Frames.{AgesTell};

use crate::buffers::Buffers;
use crate::chain::Chain;
use crate::shape::Shape;
use crate::state::State;
use pixel::Pixel;

// Writes one pixel of the back and reads it: it is what was written, if it is on the display.
pub fn write_then_read<P: Pixel, C: Chain<P>>(chain: &mut C, x: u32, y: u32, p: P) -> Option<P>
    ensures read { result ≡ (if on_display (C.Chain.tells chain.old) x y then Some p else None) }
    ensures after { C.Chain.tells chain.new ≡ written (C.Chain.tells chain.old) x y p }
{
    chain.write(x, y, p);
    chain.back_pixel(x, y)
}

// Writes one pixel of a new chain, whose back is buffer 0. A chain only borrows the caller's memory: once it is gone, the
// memory holds what was written.
pub fn write_once<P: Pixel>(mem: &mut [P], shape: Shape, x: u32, y: u32, p: P) -> bool
    ensures answers { result ≡ fits 1 shape (length mem.old) && inside shape.width shape.height x y }
    ensures leaves { mem.new ≡ (if result then slice_set mem.old (place shape.layout shape.width shape.height 0 x y) p else mem.old) }
{
    let state = State::new(shape, 1, mem.len());
    let mut buffers = Buffers { mem, state };
    buffers.write(x, y, p)
}

// What a chain tells after a write, after a swap that says what it picks, and when it is new, is a function of what it
// told and of the call: chains that tell the same still do after the same calls, whatever their order of memory.
pub fn steps_are_functions<P: Pixel>()
    ensures writes { WriteIsFunction P }
    ensures turns { TurnIsFunction P }
    ensures swaps { TurnSwaps P }
    ensures begins { BeginIsFunction P }
{}

// A buffer's age tells which frame it holds.
#[tactic(auto, using(crate::proofs::Showing::ages_tell))]
pub fn ages_tell_frames<P: Pixel>()
    ensures { AgesTell P }
{}
