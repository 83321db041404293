ghost use Rattle.std.specs.Prelude.{◌≡◌};
ghost use Rattle.reference.specs.declared.call.Call.TheVariants.{Place, Move, Lift, Remove};
ghost use Rattle.panel.specs.Calls.{meaning, StackCall, TellCall, ShowCall, Asked, front_at};

use crate::panel::Panel;
use chain::Chain;
use pixel::Pixel;
use reference::{Refusal, Shown};
use region::Rect;
use surface::{Order, Shelf};

// The calls of a panel, with their numbers one by one, as a caller has them. Each meets the first refusal that applies, or
// none; a refused one alters nothing. All but the last hand on to a function of working.rt that promises the same: its
// proof is given in files, so that only here a wrong body is refused by the contract alone. `meaning ..` puts together what the three bounds mean; a trait with that as its
// ghost member would be named by a quote no plainer, `⟦<Panel<P, S, C> as Means<P, S, C>>⟧.meaning`, and have no method.
impl<P: Pixel, S: Shelf<P>, C: Chain<P>> Panel<P, S, C> {
    // Puts a surface on top of the stack, its upper left corner at (x, y).
    pub fn place(&mut self, surface: i32, x: i32, y: i32) -> Result<(), Refusal>
        ensures { StackCall (meaning P.Pixel.lay (S.Shelf.tells P.Pixel.solid) S.Shelf.becomes C.Chain.tells) self.old (Place surface x y) result self.new }
    {
        self.try_place(surface, x, y)
    }

    // Sets the place of a surface's pane.
    pub fn move_to(&mut self, surface: i32, x: i32, y: i32) -> Result<(), Refusal>
        ensures { StackCall (meaning P.Pixel.lay (S.Shelf.tells P.Pixel.solid) S.Shelf.becomes C.Chain.tells) self.old (Move surface x y) result self.new }
    {
        self.try_move(surface, x, y)
    }

    // Takes a surface's pane out of the stack and puts it back with `under` panes under it.
    pub fn lift(&mut self, surface: i32, under: i32) -> Result<(), Refusal>
        ensures { StackCall (meaning P.Pixel.lay (S.Shelf.tells P.Pixel.solid) S.Shelf.becomes C.Chain.tells) self.old (Lift surface under) result self.new }
    {
        self.try_lift(surface, under)
    }

    // Takes a surface's pane off the stack.
    pub fn remove(&mut self, surface: i32) -> Result<(), Refusal>
        ensures { StackCall (meaning P.Pixel.lay (S.Shelf.tells P.Pixel.solid) S.Shelf.becomes C.Chain.tells) self.old (Remove surface) result self.new }
    {
        self.try_remove(surface)
    }

    // Passes an order on to a surface, and answers the surface's damage box.
    pub fn tell(&mut self, surface: i32, order: Order) -> Result<Rect, Refusal>
        ensures { TellCall (meaning P.Pixel.lay (S.Shelf.tells P.Pixel.solid) S.Shelf.becomes C.Chain.tells) self.old surface order result self.new }
    {
        self.pass_on(surface, order)
    }

    // Paints the stated region into the back and shows it.
    pub fn show(&mut self) -> Shown
        ensures { ShowCall (meaning P.Pixel.lay (S.Shelf.tells P.Pixel.solid) S.Shelf.becomes C.Chain.tells) self.old result self.new }
    {
        self.repaint()
    }

    // The pixel of the front at (x, y): none off the display, and none before the first show.
    pub fn front(&mut self, x: i32, y: i32) -> Option<P>
        ensures pixel { result ≡ front_at (meaning P.Pixel.lay (S.Shelf.tells P.Pixel.solid) S.Shelf.becomes C.Chain.tells) (C.Chain.tells self.old.chain) x y }
        ensures asked { Asked (meaning P.Pixel.lay (S.Shelf.tells P.Pixel.solid) S.Shelf.becomes C.Chain.tells) self.old self.new }
    {
        let x = u32::try_from(x).ok()?;
        let y = u32::try_from(y).ok()?;
        self.chain.front_pixel(x, y)
    }
}
