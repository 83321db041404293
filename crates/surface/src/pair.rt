ghost use Rattle.std.specs.Prelude.{◌≡◌};
ghost use Rattle.surface.specs.Beside.{part as place, Parts};
ghost use Rattle.surface.specs.Paired.{paired, PairBecomes, PairSettles};
ghost use Rattle.surface.specs.PairOwed.{beside_sound};

use crate::order::{Order, OrderRefused};
use crate::shelf::Shelf;
use crate::size::Size;
use pixel::Pixel;
use region_laws::Rect;

// Two shelves side by side: the first's numbers stay, the second's follow, and what would be number 255 or above
// cannot be reached.
#[derive(Drop)]
pub struct Pair<A, B> {
    pub first: A,
    pub second: B,
}

// The part of a pair that has a surface, with the surface's number there.
#[derive(Clone, Copy)]
enum Part {
    First(u32),
    Second(u32),
}

// The part that has surface k, if any has it, where the first part has n surfaces.
fn find_part(n: u32, k: u32) -> Option<Part>
    ensures { result ≡ place n k }
{
    if k < n {
        Some(Part::First(k))
    } else if k < 255 {
        Some(Part::Second(k - n))
    } else {
        None
    }
}

// Each method asks the part that has the surface. The parts are of two types, so that no one function could take the
// question as a closure.
impl<P: Pixel, A: Shelf<P>, B: Shelf<P>> Shelf<P> for Pair<A, B> {
    ghost tells = { λ hard s. paired (A.Shelf.tells hard) (B.Shelf.tells hard) s };

    ghost sound = { λ hard s. beside_sound hard (A.Shelf.tells hard s.first) (B.Shelf.tells hard s.second) (A.Shelf.sound hard s.first) (B.Shelf.sound hard s.second) };

    ghost becomes = { PairBecomes (A.Shelf.tells P.Pixel.solid) A.Shelf.becomes B.Shelf.becomes };

    fn count(&self) -> u32
        ensures told { result ≡ (paired (A.Shelf.tells P.Pixel.solid) (B.Shelf.tells P.Pixel.solid) self.now).count }
        ensures parts { Parts (A.Shelf.tells P.Pixel.solid self.now.first) (B.Shelf.tells P.Pixel.solid self.now.second) (paired (A.Shelf.tells P.Pixel.solid) (B.Shelf.tells P.Pixel.solid) self.now) }
        ensures settled { PairSettles (A.Shelf.tells P.Pixel.solid) (B.Shelf.tells P.Pixel.solid) A.Shelf.becomes B.Shelf.becomes }
    {
        (self.first.count() + self.second.count()).min(255)
    }

    fn size(&self, k: u32) -> Option<Size> {
        match find_part(self.first.count(), k)? {
            Part::First(j) => self.first.size(j),
            Part::Second(j) => self.second.size(j),
        }
    }

    fn pixel(&self, k: u32, x: u32, y: u32) -> Option<P> {
        match find_part(self.first.count(), k)? {
            Part::First(j) => self.first.pixel(j, x, y),
            Part::Second(j) => self.second.pixel(j, x, y),
        }
    }

    fn solid(&self, k: u32) -> Option<Rect> {
        match find_part(self.first.count(), k)? {
            Part::First(j) => self.first.solid(j),
            Part::Second(j) => self.second.solid(j),
        }
    }

    fn order(&mut self, k: u32, o: Order) -> Result<Rect, OrderRefused> {
        match find_part(self.first.count(), k).ok_or(OrderRefused)? {
            Part::First(j) => self.first.order(j, o),
            Part::Second(j) => self.second.order(j, o),
        }
    }
}
