ghost use Rattle.std.specs.Prelude.{◌≡◌};
ghost use Rattle.chain.specs.Screens.{Screens, Sound, back_age, back_pixel, front_pixel};
ghost use Rattle.chain.specs.Writes.{Puts};
ghost use Rattle.chain.specs.Swaps.{Swapped};

use pixel::Pixel;

// A chain of picture buffers: one is written, the back, while another is seen, the front. A buffer's age says what it
// still holds, and so what need not be written again. Questions alter nothing and answer from what the chain tells; they
// take it for writing, as its memory is lent for writing only, so each promises that what it tells is the same. A place
// is its two numbers x and y, as loops count them: no fact ties the two.
pub trait Chain<P: Pixel> {
    // what the chain tells
    ghost tells: { Self → Screens P };

    // a proof, which each kind owes, that what it tells is sound
    ghost sound: { (s : Self) → Sound (tells s) };

    // The width of the display in pixels.
    fn width(&mut self) -> u32
        ensures gives { result ≡ (tells self.old).width }
        ensures same { tells self.new ≡ tells self.old };

    // The height of the display in pixels.
    fn height(&mut self) -> u32
        ensures gives { result ≡ (tells self.old).height }
        ensures same { tells self.new ≡ tells self.old };

    // The age of the back; 0, as buffer ages are told, where its contents are unknown.
    fn age(&mut self) -> u8
        ensures gives { result ≡ back_age (tells self.old) }
        ensures same { tells self.new ≡ tells self.old };

    // The pixel of the back at x, y, if that is on the display.
    fn back_pixel(&mut self, x: u32, y: u32) -> Option<P>
        ensures gives { result ≡ back_pixel (tells self.old) x y }
        ensures same { tells self.new ≡ tells self.old };

    // The pixel of the front at x, y, if there is a front and that is on the display.
    fn front_pixel(&mut self, x: u32, y: u32) -> Option<P>
        ensures gives { result ≡ front_pixel (tells self.old) x y }
        ensures same { tells self.new ≡ tells self.old };

    // Sets the pixel of the back at x, y and answers yes, or answers no off the display, which is no error.
    fn write(&mut self, x: u32, y: u32, p: P) -> bool
        ensures { Puts (tells self.old) x y p result (tells self.new) };

    // Makes the back the front and picks the next back.
    fn swap(&mut self)
        ensures { Swapped (tells self.old) (tells self.new) };
}
