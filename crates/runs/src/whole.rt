ghost use Rattle.std.specs.Prelude.{◌≡◌, min, length, drop, MatchResult};
ghost use Rattle.panel.specs.Calls.{meaning};
ghost use Rattle.runs.specs.Runs.{Lived, NeverOpened};

use crate::running::run;
use chain::Chain;
use panel::{Panel, Unopened};
use pixel::Pixel;
use reference::{Answer, Call};
use surface::Shelf;

// Opens a panel on a shelf, a chain and a base, whatever they are, and makes calls on it, as many as there are calls and
// places for answers: the law of whole runs, from the opening to the end.
pub fn open_and_run<P: Pixel, S: Shelf<P>, C: Chain<P>>(
    shelf: S,
    chain: C,
    base: P,
    calls: &[Call],
    answers: &mut [Answer],
) -> Result<Panel<P, S, C>, Unopened<S, C>>
    ensures lived { MatchResult result (λ p. Lived (meaning P.Pixel.lay (S.Shelf.tells P.Pixel.solid) S.Shelf.becomes C.Chain.tells) shelf chain base calls.now answers.new (min (length calls.now) (length answers.old)) p)
        (λ u. NeverOpened (meaning P.Pixel.lay (S.Shelf.tells P.Pixel.solid) S.Shelf.becomes C.Chain.tells) shelf chain answers.old answers.new u) }
    ensures others { drop (min (length calls.now) (length answers.old)) answers.new ≡ drop (min (length calls.now) (length answers.old)) answers.old }
{
    let mut panel = Panel::open(shelf, chain, base)?;
    run(&mut panel, calls, answers);
    Ok(panel)
}
