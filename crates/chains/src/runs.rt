ghost use Rattle.std.specs.Prelude.{◌≡◌, ℕ, false, length};
ghost use Rattle.chain.specs.Screens.{Screens, back_age};
ghost use Rattle.chain.specs.Swaps.{Turned};
ghost use Rattle.chain.specs.Told.{screens, Untouched};
ghost use Rattle.chains.specs.Digits.{digit, further};
ghost use Rattle.chains.specs.Rotation.{Rotated, rotations, Settles};
ghost use Rattle.chains.specs.Picked.{Picked, pickings, Advanced};
ghost use Rattle.chains.specs.Met.{repeats, Met, Worked};
ghost use Rattle.chains.specs.Ways.{Turns, later, turnings};
ghost use Rattle.chains.specs.declared.single.Stay.{Stay};
ghost use Rattle.chains.specs.declared.rotating.Rotate.{Rotate};
ghost use Rattle.chains.specs.declared.picks.Picks.{Picks};

use crate::picks::Picks;
use crate::rotating::{Rotate, Rotating};
use crate::rule::Rule;
use crate::single::Stay;
use crate::turning::Turning;
use chain::Chain;
use pixel::Pixel;

// Swaps a rotating chain again and again. Once it has gone round, each show meets the age that is the number of buffers.
#[tactic(auto, using(crate::proofs::Settling::rotate_more, crate::proofs::Settling::settles_buffers))]
pub fn swap_times<P: Pixel>(chain: &mut Rotating<'_, P>, times: u32)
    ensures rotates { screens chain.new.buffers ≡ rotations times (screens chain.old.buffers) }
    ensures settles { Settles (screens chain.old.buffers) times (screens chain.new.buffers) }
    ensures untouched { Untouched chain.old.buffers chain.new.buffers }
{
    for _ in 0..times {
        chain.swap();
    }
}

// Swaps a chain once, and answers the age that the show met.
fn meet_age<P: Pixel, R: Rule>(chain: &mut Turning<'_, P, R>) -> u8
    ensures age { result ≡ back_age (screens chain.old.buffers) }
    ensures turns { Turns R.way chain.old.rule (screens chain.old.buffers) (screens chain.new.buffers) }
    ensures rule { chain.new.rule ≡ R.way.after chain.old.rule }
    ensures untouched { Untouched chain.old.buffers chain.new.buffers }
{
    let age = chain.age();
    chain.swap();
    age
}

// Swaps a chain once for each place of `ages`, and notes there the age that the show met.
pub fn meet_ages<P: Pixel, R: Rule>(chain: &mut Turning<'_, P, R>, ages: &mut [u8])
    ensures met { Met (λ k. turnings R.way k chain.old.rule (screens chain.old.buffers)) ages.new }
    ensures after { screens chain.new.buffers ≡ turnings R.way (length ages.old) chain.old.rule (screens chain.old.buffers) }
    ensures rule { chain.new.rule ≡ later R.way (length ages.old) chain.old.rule }
    ensures untouched { Untouched chain.old.buffers chain.new.buffers }
{
    for age in ages.iter_mut() {
        *age = meet_age(chain);
    }
}

// What one swap of each kind of chain does.
pub fn kinds_swap<P: Pixel>()
    ensures single { (r : Stay) (s t : Screens P) → Turns ⟦<Stay as Rule>⟧.way r s t → Turned s 0 false t }
    ensures rotating { (r : Rotate) (s t : Screens P) → Turns ⟦<Rotate as Rule>⟧.way r s t → Rotated s t }
    ensures picking { (p : Picks) (s t : Screens P) → Turns ⟦<Picks as Rule>⟧.way p s t → Picked s (digit p.number p.at) t }
    ensures advances { (p : Picks) → Advanced p (⟦<Picks as Rule>⟧.way.after p) }
{}

// What each kind tells after any number of swaps, and which digit of a picking chain is next then.
#[tactic(auto, using(crate::proofs::Same::stays, crate::proofs::Same::rotates, crate::proofs::Same::picks, crate::proofs::Same::digits_left))]
pub fn kinds_turn<P: Pixel>()
    ensures single { (r : Stay) (k : ℕ) (s : Screens P) → turnings ⟦<Stay as Rule>⟧.way k r s ≡ repeats k s }
    ensures rotating { (r : Rotate) (k : ℕ) (s : Screens P) → turnings ⟦<Rotate as Rule>⟧.way k r s ≡ rotations k s }
    ensures picking { (p : Picks) (k : ℕ) (s : Screens P) → turnings ⟦<Picks as Rule>⟧.way k p s ≡ pickings p.number p.at k s }
    ensures digits { (p : Picks) (k : ℕ) → ((later ⟦<Picks as Rule>⟧.way k p).number ≡ p.number) × ((later ⟦<Picks as Rule>⟧.way k p).at ≡ further p.at 16 k) }
{}

// The ages met on two worked examples.
pub fn worked_ages<P: Pixel>()
    ensures { Worked P }
{}
