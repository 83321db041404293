ghost use Rattle.std.specs.Prelude.{◌≡◌, ℕ, Bool, true};
ghost use Rattle.region_laws.specs.declared.rect.Rect.{Rect};
ghost use Rattle.surface.specs.declared.order.Order.{Order};
ghost use Rattle.surface.specs.Told.{Told, has, passes};
ghost use Rattle.surface.specs.Sound.{Sound};
ghost use Rattle.surface.specs.Answered.{Answered};

use crate::order::{Order, OrderRefused};
use crate::size::Size;
use pixel::Pixel;
use region_laws::Rect;

// A shelf: 1 to 255 surfaces, numbered from 0, whose count and sizes are fixed for life. One surface is a shelf of
// count 1. A place is its two numbers x and y, as loops count them: no fact ties the two.
pub trait Shelf<P: Pixel> {
    // what the shelf tells, given which pixels are solid
    ghost tells: { (P → Bool) → Self → Told P };

    // the proof that it tells what every shelf must
    ghost sound: { (hard : P → Bool) (s : Self) → Sound hard (tells hard s) };

    // what an order to a surface, that is taken and answers the damage box, makes of the shelf
    ghost becomes: { Self → ℕ → Order → Rect → Self → Type 0 };

    // How many surfaces there are.
    fn count(&self) -> u32
        ensures { result ≡ (tells P.Pixel.solid self.now).count };

    // The sides of surface k, or None where there is no such surface.
    fn size(&self, k: u32) -> Option<Size>
        ensures { result ≡ (tells P.Pixel.solid self.now).size k };

    // The pixel at (x, y) of the picture of surface k, or None where there is no such surface or place.
    fn pixel(&self, k: u32, x: u32, y: u32) -> Option<P>
        ensures { result ≡ (tells P.Pixel.solid self.now).pixel k x y };

    // A box of surface k in which every pixel is solid, of no pixel where none is known; or None where there is no such
    // surface.
    fn solid(&self, k: u32) -> Option<Rect>
        ensures told { result ≡ (tells P.Pixel.solid self.now).solid k }
        ensures hides { (x y : ℕ) → has result x y ≡ true → passes P.Pixel.solid ((tells P.Pixel.solid self.now).pixel k x y) ≡ true };

    // Passes an order to surface k, and answers the box outside which its picture is as before.
    fn order(&mut self, k: u32, o: Order) -> Result<Rect, OrderRefused>
        ensures { Answered (tells P.Pixel.solid) becomes self.old k o result self.new };
}
