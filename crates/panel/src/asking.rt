ghost use Rattle.std.specs.Prelude.{◌≡◌, map};
ghost use Rattle.reference.specs.Places.{whole_box};
ghost use Rattle.scene.specs.States.{state_of};
ghost use Rattle.panel.specs.Sights.{sight as sight_of, sights_of};
ghost use Rattle.panel.specs.Calls.{found};

use crate::panel::Panel;
use crate::sight::{Sight, Sights};
use arrayvec::ArrayVec;
use chain::Chain;
use pixel::Pixel;
use reference::Pane;
use region::Rect;
use scene::Known;
use surface::{Shelf, Size};

// The box of a whole surface; one that covers nothing where there is no surface, or it is closed: no pixel is shown then
// either way.
fn whole_of(size: Option<Size>) -> Rect
    ensures { result ≡ whole_box size }
{
    size.map_or(Rect::NONE, |z| Rect::of_size(z.width, z.height))
}

// What the panel asks its shelf beside pixels.
impl<P: Pixel, S: Shelf<P>, C: Chain<P>> Panel<P, S, C> {
    // The surface that a number names, if the shelf has it and it is not closed.
    pub(crate) fn find(&self, surface: i32) -> Option<Known>
        ensures { result ≡ found (S.Shelf.tells P.Pixel.solid self.now.shelf) surface }
    {
        let number = u32::try_from(surface).ok()?;
        if number >= self.shelf.count() {
            return None;
        }
        let whole = whole_of(self.shelf.size(number));
        whole.is_full().then_some(Known { number, whole })
    }

    fn sight(&self, pane: Pane) -> Sight
        ensures { result ≡ sight_of (S.Shelf.tells P.Pixel.solid self.now.shelf) pane }
    {
        let whole = whole_of(self.shelf.size(pane.surface));
        let solid = self.shelf.solid(pane.surface).unwrap_or(Rect::NONE);
        Sight { pane, whole, solid }
    }

    // What a show has to know of the stack.
    pub(crate) fn sights(&self) -> Sights
        ensures { sights_of result ≡ map (sight_of (S.Shelf.tells P.Pixel.solid self.now.shelf)) (state_of self.now.scene).stack }
    {
        let mut all = ArrayVec::new();
        for pane in self.scene.panes() {
            all.push(self.sight(*pane));
        }
        Sights { all }
    }
}
