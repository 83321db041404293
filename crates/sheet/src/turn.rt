ghost use Rattle.std.specs.Prelude.{◌≡◌, ℕ, ◌<◌, ◌&&◌, pos, is_ok, IfOk, int_le, int_lt};
ghost use Rattle.region_laws.specs.Boxes.{Smallest};
ghost use Rattle.surface.specs.Answered.{Answered};
ghost use Rattle.surface.specs.Settled.{Settled};
ghost use Rattle.sheet.specs.Sheets.{accepts, turning, told, changed, Turned};
ghost use Rattle.sheet.specs.Owed.{told_sound_lem};

use crate::sheet::Sheet;
use pixel::Pixel;
use region_laws::Rect;
use surface::{Order, OrderRefused, Shelf, Size};

// The act of an order that turns a page.
const TURN: i32 = 1;

// The order that turns a sheet to a page.
pub fn turn_to(page: i32) -> Order
    ensures is { result ≡ turning page }
    ensures taken { (n : ℕ) → accepts n result ≡ (int_le (pos 0) page && int_lt page (pos n)) }
{
    Order {
        act: TURN,
        a: page,
        b: 0,
    }
}

// The page that an order asks for, of n pages.
fn asked(o: Order, n: u32) -> Result<u32, OrderRefused>
    ensures taken { is_ok result ≡ accepts n o }
    ensures shows { IfOk result (λ p. (pos p ≡ o.a) × (p < n)) }
{
    match u32::try_from(o.a) {
        Ok(page) if o.act == TURN && o.b == 0 && page < n => Ok(page),
        _ => Err(OrderRefused),
    }
}

// A sheet is a shelf by itself, as a figure is: each tests for number 0, its only surface.
impl<'a, P: Pixel> Shelf<P> for Sheet<'a, P> {
    ghost tells = { told };

    ghost sound = { told_sound_lem };

    ghost becomes = { Turned P.Pixel.equal };

    fn count(&self) -> u32 {
        1
    }

    fn size(&self, k: u32) -> Option<Size> {
        (k == 0).then_some(Size {
            width: self.width,
            height: self.height,
        })
    }

    fn pixel(&self, k: u32, x: u32, y: u32) -> Option<P> {
        if k != 0 {
            return None;
        }
        self.shown_page().pixel(x, y)
    }

    #[tactic(auto, using(crate::proofs::Turning::shown_hides))]
    fn solid(&self, k: u32) -> Option<Rect> {
        if k != 0 {
            return None;
        }
        if self.shown_page().is_solid() {
            Some(Rect::of_size(self.width, self.height))
        } else {
            Some(Rect::NONE)
        }
    }

    fn order(&mut self, k: u32, o: Order) -> Result<Rect, OrderRefused>
        ensures answered { Answered (told P.Pixel.solid) (Turned P.Pixel.equal) self.old k o result self.new }
        ensures smallest { IfOk result (λ d. Smallest (changed P.Pixel.equal self.old self.new.page) d) }
        ensures settled { Settled (told P.Pixel.solid) (Turned P.Pixel.equal) }
    {
        if k != 0 || self.width == 0 {
            return Err(OrderRefused);
        }
        let next = asked(o, self.pages)?;
        let damage = self.damage_to(next);
        self.page = next;
        Ok(damage)
    }
}
