ghost use Rattle.std.specs.Prelude.{◌≡◌};
ghost use Rattle.panel.specs.Calls.{meaning, Keeps, Fixed};
ghost use Rattle.runs.specs.Does.{Does};

use chain::Chain;
use panel::Panel;
use pixel::Pixel;
use reference::{Answer, Call};
use surface::Shelf;

// Makes one call on a panel.
pub fn step<P: Pixel, S: Shelf<P>, C: Chain<P>>(panel: &mut Panel<P, S, C>, call: Call) -> Answer
    ensures does { Does (meaning P.Pixel.lay (S.Shelf.tells P.Pixel.solid) S.Shelf.becomes C.Chain.tells) panel.old call result panel.new }
    ensures keeps { Keeps (meaning P.Pixel.lay (S.Shelf.tells P.Pixel.solid) S.Shelf.becomes C.Chain.tells) panel.old call result panel.new }
    ensures fixed { Fixed (meaning P.Pixel.lay (S.Shelf.tells P.Pixel.solid) S.Shelf.becomes C.Chain.tells) panel.old panel.new }
{
    // a call is data that a caller gives, so its six kinds are told apart here
    match call {
        Call::Place { surface, x, y } => panel.place(surface, x, y).into(),
        Call::Move { surface, x, y } => panel.move_to(surface, x, y).into(),
        Call::Lift { surface, under } => panel.lift(surface, under).into(),
        Call::Remove { surface } => panel.remove(surface).into(),
        Call::Tell { surface, order } => panel.tell(surface, order).into(),
        Call::Show => Answer::Shown(panel.show()),
    }
}
