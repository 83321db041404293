ghost use Rattle.std.specs.Prelude.{◌≡◌, ◌+◌, ◌%◌, ◌<◌, ◌≤◌, length, if◌then◌else◌, slice_set};
ghost use Rattle.chain.specs.Screens.{back_age, back_pixel, front_pixel};
ghost use Rattle.chain.specs.Writes.{Puts};
ghost use Rattle.chain.specs.Swaps.{Turned};
ghost use Rattle.chain.specs.Begins.{Begins};
ghost use Rattle.chain.specs.Shapes.{fits};
ghost use Rattle.chain.specs.Told.{exact, pixel_in, screens, Stored, Untouched};

use crate::pick::Pick;
use crate::shape::Shape;
use crate::state::State;
use pixel::Pixel;

// The buffers of a chain, one after the other in the caller's memory, and all else that the chain knows.
#[derive(Drop)]
pub struct Buffers<'a, P> {
    pub(crate) mem: &'a mut [P],
    pub(crate) state: State,
}

// Sets one pixel of a buffer.
fn put<P: Pixel>(buffer: &mut [P], at: usize, p: P)
    requires { at < length buffer.old }
    ensures { buffer.new ≡ slice_set buffer.old at p }
{
    buffer[at] = p;
}

// Sets one pixel of the buffer that begins at `from` and has `size` pixels: that part of the memory is lent on.
#[tactic(auto, using(crate::proofs::Middle::mid_set))]
fn put_among<P: Pixel>(memory: &mut [P], from: usize, size: usize, at: usize, p: P)
    requires whole { from + size ≤ length memory.old }
    requires within { at < size }
    ensures { memory.new ≡ slice_set memory.old (from + at) p }
{
    put(&mut memory[from..from + size], at, p)
}

impl<'a, P: Pixel> Buffers<'a, P> {
    // `least` to 4 buffers that fill the memory exactly; else one buffer with both sides 0. No pixel is altered.
    #[tactic(auto, using(crate::proofs::Beginning::begins))]
    pub fn new(mem: &'a mut [P], shape: Shape, least: u32) -> Buffers<'a, P>
        ensures begins { Begins shape.layout mem.old (fits least shape (length mem.old)) shape.width shape.height shape.count (screens result) }
        ensures kept { result.mem.now ≡ mem.old }
        ensures lends { result.mem.ghost_name ≡ mem.entry.ghost_name }
    {
        let state = State::new(shape, least, mem.len());
        Buffers { mem, state }
    }

    // A side of the shape, or 0 where the memory has another length than the buffers need.
    fn side(&mut self, pixels: u32) -> u32
        ensures gives { result ≡ (if exact self.old.state.shape self.old.mem.now then pixels else 0) }
        ensures same { self.new ≡ self.old }
    {
        let exact = self.state.shape.is_exact(self.mem.len());
        if exact { pixels } else { 0 }
    }

    pub fn width(&mut self) -> u32
        ensures gives { result ≡ (screens self.old).width }
        ensures same { self.new ≡ self.old }
    {
        self.side(self.state.shape.width)
    }

    pub fn height(&mut self) -> u32
        ensures gives { result ≡ (screens self.old).height }
        ensures same { self.new ≡ self.old }
    {
        self.side(self.state.shape.height)
    }

    // The number of the back.
    pub fn back(&mut self) -> u32
        ensures gives { result ≡ (screens self.old).back }
        ensures below { result < 4 }
        ensures same { self.new ≡ self.old }
    {
        self.state.back
    }

    // The age of the back.
    pub fn age(&mut self) -> u8
        ensures gives { result ≡ back_age (screens self.old) }
        ensures same { self.new ≡ self.old }
    {
        self.state.ages.get(self.state.back)
    }

    // The pixel of one buffer at x, y.
    #[tactic(auto, using(crate::proofs::Writing::found, crate::proofs::Writing::read_in))]
    fn pixel(&mut self, buffer: u32, x: u32, y: u32) -> Option<P>
        requires { buffer < self.old.state.shape.count }
        ensures gives { result ≡ pixel_in self.old.state.shape self.old.mem.now buffer x y }
        ensures same { self.new ≡ self.old }
    {
        let at = self.state.spot(self.mem.len(), x, y)?;
        Some(self.mem[buffer as usize * self.state.shape.size() + at])
    }

    pub fn back_pixel(&mut self, x: u32, y: u32) -> Option<P>
        ensures gives { result ≡ back_pixel (screens self.old) x y }
        ensures same { self.new ≡ self.old }
    {
        self.pixel(self.state.back, x, y)
    }

    // The pixel of the front, if there is a front.
    pub fn front_pixel(&mut self, x: u32, y: u32) -> Option<P>
        ensures gives { result ≡ front_pixel (screens self.old) x y }
        ensures same { self.new ≡ self.old }
    {
        self.pixel(self.state.front?, x, y)
    }

    // Writes one pixel of the back, and counts it; or nothing off the display.
    pub fn write(&mut self, x: u32, y: u32, p: P) -> bool
        ensures puts { Puts (screens self.old) x y p result (screens self.new) }
        ensures stored { Stored self.old x y p result self.new }
    {
        let Some(at) = self.state.spot(self.mem.len(), x, y) else {
            return false;
        };
        let size = self.state.shape.size();
        put_among(self.mem, self.state.back as usize * size, size, at, p);
        self.state.writes = self.state.writes.wrapping_add(1);
        true
    }

    // Shows the back and picks the next one, modulo their number; forgets it if asked, unless it is what is shown.
    pub fn turn(&mut self, pick: Pick)
        ensures turns { Turned (screens self.old) (pick.buffer % (screens self.old).count) pick.forget (screens self.new) }
        ensures untouched { Untouched self.old self.new }
    {
        self.state.turn(pick);
    }
}
