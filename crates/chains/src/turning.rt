ghost use Rattle.std.specs.Prelude.{◌≡◌};
ghost use Rattle.chain.specs.Screens.{back_age, back_pixel, front_pixel};
ghost use Rattle.chain.specs.Writes.{Puts};
ghost use Rattle.chain.specs.Swaps.{Swapped};
ghost use Rattle.chain.specs.Told.{screens, screens_sound, Stored, Untouched};
ghost use Rattle.chains.specs.Ways.{Turns};

use crate::rule::Rule;
use chain::{Buffers, Chain};
use pixel::Pixel;

// A chain whose buffers are the back by a rule. Each kind has a `new` of its own, which takes the numbers that the kind
// leaves open; all else is here.
#[derive(Drop)]
pub struct Turning<'a, P, R> {
    pub(crate) buffers: Buffers<'a, P>,
    pub(crate) rule: R,
}

impl<'a, P: Pixel, R: Rule> Chain<P> for Turning<'a, P, R> {
    ghost tells = { λ s. screens s.buffers };

    ghost sound = { λ s. screens_sound s.buffers };

    fn width(&mut self) -> u32
        ensures gives { result ≡ (screens self.old.buffers).width }
        ensures same { self.new ≡ self.old }
    {
        self.buffers.width()
    }

    fn height(&mut self) -> u32
        ensures gives { result ≡ (screens self.old.buffers).height }
        ensures same { self.new ≡ self.old }
    {
        self.buffers.height()
    }

    fn age(&mut self) -> u8
        ensures gives { result ≡ back_age (screens self.old.buffers) }
        ensures same { self.new ≡ self.old }
    {
        self.buffers.age()
    }

    fn back_pixel(&mut self, x: u32, y: u32) -> Option<P>
        ensures gives { result ≡ back_pixel (screens self.old.buffers) x y }
        ensures same { self.new ≡ self.old }
    {
        self.buffers.back_pixel(x, y)
    }

    fn front_pixel(&mut self, x: u32, y: u32) -> Option<P>
        ensures gives { result ≡ front_pixel (screens self.old.buffers) x y }
        ensures same { self.new ≡ self.old }
    {
        self.buffers.front_pixel(x, y)
    }

    fn write(&mut self, x: u32, y: u32, p: P) -> bool
        ensures puts { Puts (screens self.old.buffers) x y p result (screens self.new.buffers) }
        ensures rule { self.new.rule ≡ self.old.rule }
        ensures stored { Stored self.old.buffers x y p result self.new.buffers }
    {
        self.buffers.write(x, y, p)
    }

    // Picks the buffer that the rule says, and forgets it if the rule says that too.
    fn swap(&mut self)
        ensures swaps { Swapped (screens self.old.buffers) (screens self.new.buffers) }
        ensures turns { Turns R.way self.old.rule (screens self.old.buffers) (screens self.new.buffers) }
        ensures rule { self.new.rule ≡ R.way.after self.old.rule }
        ensures untouched { Untouched self.old.buffers self.new.buffers }
    {
        let pick = self.rule.pick(self.buffers.back());
        self.buffers.turn(pick);
    }
}
