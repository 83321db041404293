ghost use Rattle.std.specs.Prelude.{◌≡◌, ℕ, ◌*◌, ◌%◌, ◌^◌, ◌<◌, ◌≤◌, ◌&&◌, IfSome, if◌then◌else◌, Some, None, nat_eq, slice_index};
ghost use Rattle.chain.specs.Screens.{Below, inside};
ghost use Rattle.chain.specs.Ages.{age_after};
ghost use Rattle.chain.specs.Shapes.{Small, fitted, room};

use crate::ages::Ages;
use crate::pick::Pick;
use crate::shape::Shape;

// All of a chain but its pixels: its shape, which buffer is the back and which the front, the ages and the count of
// writes.
#[derive(Clone, Copy)]
pub struct State {
    pub shape: Shape,
    pub back: u32,
    pub front: Option<u32>,
    pub ages: Ages,
    pub writes: u32,
    ghost sides: { Small shape },
    ghost few: { shape.count ≤ 4 },
    ghost known: { (back < shape.count) × Below front shape.count },
    ghost bytes: { (b : ℕ) → slice_index ages.by_buffer b ≤ 255 },
    ghost counted: { writes < 2 ^ 32 },
}

impl State {
    ghost use Rattle.chain.specs.Places.{spot};
    ghost use Rattle.chain.specs.Told.{age_of, unaged};

    // Before the first show: back 0, no front, every age 0, no write.
    fn fresh(shape: Shape) -> State
        requires sides { Small shape }
        requires few { (1 ≤ shape.count) × (shape.count ≤ 4) }
        ensures shape { result.shape ≡ shape }
        ensures rest { (result.back ≡ 0) × (result.front ≡ None) × (result.ages ≡ unaged) × (result.writes ≡ 0) }
    {
        State {
            shape,
            back: 0,
            front: None,
            ages: Ages::new(),
            writes: 0,
        }
    }

    // A new chain's, over a memory of `len` pixels: where they do not fit, one buffer with both sides 0.
    pub(crate) fn new(shape: Shape, least: u32, len: usize) -> State
        ensures shape { result.shape ≡ fitted least shape len }
        ensures rest { (result.back ≡ 0) × (result.front ≡ None) × (result.ages ≡ unaged) × (result.writes ≡ 0) }
    {
        if shape.fits(least, len) {
            State::fresh(shape)
        } else {
            State::fresh(Shape {
                width: 0,
                height: 0,
                count: 1,
                ..shape
            })
        }
    }

    // Where a pixel lies in its buffer, in a memory of `len` pixels; nowhere off the display.
    pub(crate) fn spot(&self, len: usize, x: u32, y: u32) -> Option<usize>
        ensures below { IfSome result (λ at. at < self.now.shape.width * self.now.shape.height) }
        ensures found { result ≡ (if nat_eq len (room self.now.shape) && inside self.now.shape.width self.now.shape.height x y then Some (spot self.now.shape.layout self.now.shape.width self.now.shape.height x y) else None) }
    {
        let shape = self.shape;
        if shape.is_exact(len) && x < shape.width && y < shape.height {
            Some(shape.spot(x, y))
        } else {
            None
        }
    }

    // Shows the back and picks the next one, which is forgotten if that is asked and it is not what is shown.
    pub(crate) fn turn(&mut self, pick: Pick)
        ensures fixed { (self.new.shape ≡ self.old.shape) × (self.new.writes ≡ self.old.writes) }
        ensures front { self.new.front ≡ Some self.old.back }
        ensures back { self.new.back ≡ pick.buffer % self.old.shape.count }
        ensures ages { (b : ℕ) → age_of self.new.ages b ≡ age_after (age_of self.old.ages) self.old.back (pick.buffer % self.old.shape.count) pick.forget b }
    {
        let shown = self.back;
        let picked = pick.buffer % self.shape.count;
        self.ages.show(shown);
        if pick.forget && picked != shown {
            self.ages.forget(picked);
        }
        self.front = Some(shown);
        self.back = picked;
    }
}
