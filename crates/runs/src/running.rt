ghost use Rattle.std.specs.Prelude.{◌≡◌, min, length, drop};
ghost use Rattle.panel.specs.Calls.{meaning, Fixed};
ghost use Rattle.runs.specs.Runs.{Runs};

use crate::stepping::step;
use chain::Chain;
use panel::Panel;
use pixel::Pixel;
use reference::{Answer, Call};
use surface::Shelf;

// Makes calls on a panel in their order, as many as there are calls and places for answers, and writes the answers down.
// Calls and answers are two slices: a caller has the one before and the other after, perhaps of another length.
pub fn run<P: Pixel, S: Shelf<P>, C: Chain<P>>(
    panel: &mut Panel<P, S, C>,
    calls: &[Call],
    answers: &mut [Answer],
)
    ensures runs { Runs (meaning P.Pixel.lay (S.Shelf.tells P.Pixel.solid) S.Shelf.becomes C.Chain.tells) panel.old calls.now answers.new (min (length calls.now) (length answers.old)) panel.new }
    ensures others { drop (min (length calls.now) (length answers.old)) answers.new ≡ drop (min (length calls.now) (length answers.old)) answers.old }
    ensures fixed { Fixed (meaning P.Pixel.lay (S.Shelf.tells P.Pixel.solid) S.Shelf.becomes C.Chain.tells) panel.old panel.new }
{
    let n = calls.len().min(answers.len());
    // by index: a proof learns nothing of what is written to places that a zip lends out
    for i in 0..n {
        answers[i] = step(panel, calls[i]);
    }
}
