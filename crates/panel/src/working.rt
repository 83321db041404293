ghost use Rattle.reference.specs.declared.call.Call.TheVariants.{Place, Move, Lift, Remove};
ghost use Rattle.panel.specs.Calls.{meaning, StackCall, TellCall, ShowCall};

use crate::panel::Panel;
use crate::sight::Tally;
use chain::Chain;
use pixel::Pixel;
use reference::{Refusal, Shown};
use region::Rect;
use surface::{Order, Shelf};

// How each call is done. A call asks its shelf, then meets the first refusal that applies, and only then changes
// anything; whether an order is taken, the shelf says by taking it. The calls on the stack differ in their check and in what they make of the scene; one function that took both
// as closures would be no plainer.
impl<P: Pixel, S: Shelf<P>, C: Chain<P>> Panel<P, S, C> {
    pub(crate) fn try_place(&mut self, surface: i32, x: i32, y: i32) -> Result<(), Refusal>
        ensures { StackCall (meaning P.Pixel.lay (S.Shelf.tells P.Pixel.solid) S.Shelf.becomes C.Chain.tells) self.old (Place surface x y) result self.new }
    {
        let found = self.find(surface);
        let known = self.scene.check_place(found, surface, x, y)?;
        self.scene.place(&self.display, known, x, y);
        Ok(())
    }

    pub(crate) fn try_move(&mut self, surface: i32, x: i32, y: i32) -> Result<(), Refusal>
        ensures { StackCall (meaning P.Pixel.lay (S.Shelf.tells P.Pixel.solid) S.Shelf.becomes C.Chain.tells) self.old (Move surface x y) result self.new }
    {
        let found = self.find(surface);
        let known = self.scene.check_move(found, surface, x, y)?;
        self.scene.move_to(&self.display, known, x, y);
        Ok(())
    }

    pub(crate) fn try_lift(&mut self, surface: i32, under: i32) -> Result<(), Refusal>
        ensures { StackCall (meaning P.Pixel.lay (S.Shelf.tells P.Pixel.solid) S.Shelf.becomes C.Chain.tells) self.old (Lift surface under) result self.new }
    {
        let found = self.find(surface);
        let known = self.scene.check_lift(found, surface, under)?;
        // the check lets no negative number through
        let under = usize::try_from(under).unwrap_or(0);
        self.scene.lift(&self.display, known, under);
        Ok(())
    }

    pub(crate) fn try_remove(&mut self, surface: i32) -> Result<(), Refusal>
        ensures { StackCall (meaning P.Pixel.lay (S.Shelf.tells P.Pixel.solid) S.Shelf.becomes C.Chain.tells) self.old (Remove surface) result self.new }
    {
        let found = self.find(surface);
        let known = self.scene.check_remove(found, surface)?;
        self.scene.remove(&self.display, known);
        Ok(())
    }

    // Passes an order on, and notes what it damages.
    pub(crate) fn pass_on(&mut self, surface: i32, order: Order) -> Result<Rect, Refusal>
        ensures { TellCall (meaning P.Pixel.lay (S.Shelf.tells P.Pixel.solid) S.Shelf.becomes C.Chain.tells) self.old surface order result self.new }
    {
        let found = self.find(surface);
        let known = found.ok_or(Refusal::NoSurface(surface))?;
        let Ok(damage) = self.shelf.order(known.number, order) else {
            return Err(Refusal::NotTaken(surface));
        };
        self.scene.damage(&self.display, known.number, damage);
        Ok(damage)
    }

    // Paints the stated region into the back and swaps.
    pub(crate) fn repaint(&mut self) -> Shown
        ensures { ShowCall (meaning P.Pixel.lay (S.Shelf.tells P.Pixel.solid) S.Shelf.becomes C.Chain.tells) self.old result self.new }
    {
        let age = self.chain.age();
        let region = self.scene.stated(&self.display, age);
        let sights = self.sights();
        let Tally { touched, laid } = self.paint(&sights, &region);
        self.chain.swap();
        self.scene.shift();
        Shown { age, touched, laid }
    }
}
