ghost use Rattle.std.specs.Prelude.{◌≡◌, pos, is_ok, IfOk};
ghost use Rattle.region_laws.specs.Boxes.{Smallest};
ghost use Rattle.surface.specs.Answered.{Answered};
ghost use Rattle.surface.specs.Settled.{Settled};
ghost use Rattle.figure.specs.Figures.{accepts, showing, figure as told_figure, fitting, told, Fresh, Drawn, changed, Showed};
ghost use Rattle.figure.specs.Characters.{in_range};
ghost use Rattle.figure.specs.Owed.{told_sound_lem};

use crate::cells::has_ink;
use crate::figure::Figure;
use crate::reading::Reading;
use pixel::Pixel;
use region_laws::Rect;
use surface::{Order, OrderRefused, Shelf, Size};

impl<P: Pixel> Figure<P> {
    // A figure that shows 0. It is closed where the scale is not 1 to 8.
    pub fn new(scale: u32, ink: P, paper: P) -> Figure<P>
        ensures told { told P.Pixel.solid result ≡ told_figure P.Pixel.solid (fitting scale) (pos 0) ink paper }
        ensures holds { Fresh scale ink paper result }
    {
        let scale = if scale <= 8 { scale } else { 0 };
        Figure {
            scale,
            shown: Reading { value: 0 },
            ink,
            paper,
        }
    }
}

// The act of an order that shows a number.
const SHOW: i32 = 3;

// The order that lets a figure show a number.
pub fn show_number(number: i32) -> Order
    ensures is { result ≡ showing number }
    ensures taken { accepts result ≡ in_range number }
{
    Order {
        act: SHOW,
        a: number,
        b: 0,
    }
}

// The number that an order asks for.
fn asked(o: Order) -> Result<Reading, OrderRefused>
    ensures taken { is_ok result ≡ accepts o }
    ensures shows { IfOk result (λ v. v.value ≡ o.a) }
{
    if o.act == SHOW && o.b == 0 {
        Reading::new(o.a).ok_or(OrderRefused)
    } else {
        Err(OrderRefused)
    }
}

// A figure is a shelf by itself, as a sheet is: each tests for number 0, its only surface.
impl<P: Pixel> Shelf<P> for Figure<P> {
    ghost tells = { told };

    ghost sound = { told_sound_lem };

    ghost becomes = { Showed };

    fn count(&self) -> u32
        ensures told { result ≡ (told P.Pixel.solid self.now).count }
        ensures drawn { Drawn self.now.scale self.now.shown.value self.now.ink self.now.paper }
    {
        1
    }

    fn size(&self, k: u32) -> Option<Size> {
        (k == 0).then_some(Size {
            width: 15 * self.scale,
            height: 5 * self.scale,
        })
    }

    fn pixel(&self, k: u32, x: u32, y: u32) -> Option<P> {
        let z = self.scale;
        if k == 0 && x < 15 * z && y < 5 * z {
            Some(if has_ink(self.shown, x / z, y / z) {
                self.ink
            } else {
                self.paper
            })
        } else {
            None
        }
    }

    fn solid(&self, k: u32) -> Option<Rect> {
        if k != 0 {
            return None;
        }
        if self.ink.is_solid() && self.paper.is_solid() {
            Some(Rect::of_size(15 * self.scale, 5 * self.scale))
        } else {
            Some(Rect::NONE)
        }
    }

    fn order(&mut self, k: u32, o: Order) -> Result<Rect, OrderRefused>
        ensures answered { Answered (told P.Pixel.solid) Showed self.old k o result self.new }
        ensures smallest { IfOk result (λ d. Smallest (changed self.old o.a) d) }
        ensures settled { Settled (told P.Pixel.solid) Showed }
    {
        let z = self.scale;
        if k != 0 || z == 0 {
            return Err(OrderRefused);
        }
        let next = asked(o)?;
        let hull = self.shown.damage(next, z);
        self.shown = next;
        Ok(hull)
    }
}
