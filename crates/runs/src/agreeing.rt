ghost use Rattle.std.specs.Prelude.{◌≡◌, min, length, MatchResult};
ghost use Rattle.panel.specs.Calls.{meaning};
ghost use Rattle.runs.specs.Runs.{Lived, NeverOpened, TwoLived, OpenAlike};

use crate::two::Two;
use crate::whole::open_and_run;
use chain::Chain;
use pixel::Pixel;
use reference::{Answer, Call};
use surface::Shelf;

// Opens two panels of one base, on two shelves and two chains of any kinds, and makes the same calls on both, as many as
// there are calls and places for both answers. On chains of one size, and where the shelves tell the same before each
// call, both meet the same refusals at the same calls, the opening's included, and show equal frames. What is given of the
// two stands side by side, each of a type of its own.
pub fn open_and_run_two<P: Pixel, S: Shelf<P>, C: Chain<P>, T: Shelf<P>, D: Chain<P>>(
    shelf: S,
    chain: C,
    other_shelf: T,
    other_chain: D,
    base: P,
    calls: &[Call],
    answers: &mut [Answer],
    other_answers: &mut [Answer],
) -> Two<P, S, C, T, D>
    ensures opening { OpenAlike (meaning P.Pixel.lay (S.Shelf.tells P.Pixel.solid) S.Shelf.becomes C.Chain.tells) (meaning P.Pixel.lay (T.Shelf.tells P.Pixel.solid) T.Shelf.becomes D.Chain.tells) chain other_chain }
    ensures agree { MatchResult result.first (λ p. MatchResult result.second
        (λ q. TwoLived (meaning P.Pixel.lay (S.Shelf.tells P.Pixel.solid) S.Shelf.becomes C.Chain.tells) (meaning P.Pixel.lay (T.Shelf.tells P.Pixel.solid) T.Shelf.becomes D.Chain.tells)
        shelf chain other_shelf other_chain base calls.now answers.new other_answers.new (min (min (length calls.now) (length answers.old)) (length other_answers.old)) p q)
        (λ u. NeverOpened (meaning P.Pixel.lay (T.Shelf.tells P.Pixel.solid) T.Shelf.becomes D.Chain.tells) other_shelf other_chain other_answers.old other_answers.new u))
        (λ u. NeverOpened (meaning P.Pixel.lay (S.Shelf.tells P.Pixel.solid) S.Shelf.becomes C.Chain.tells) shelf chain answers.old answers.new u) }
{
    let n = calls.len().min(answers.len()).min(other_answers.len());
    let calls = &calls[..n];
    let first = open_and_run(shelf, chain, base, calls, answers);
    let second = open_and_run(other_shelf, other_chain, base, calls, other_answers);
    Two { first, second }
}
