ghost use Rattle.std.specs.Prelude.{◌≡◌, ℕ, ◌%◌, ◌<◌, ◌≤◌};
ghost use Rattle.chains.specs.Ways.{Way};

use chain::Pick;

// A rule of turning: which buffer is the back after each swap, and whether it is forgotten.
pub trait Rule {
    // what the rule picks, and what is left of it then
    ghost way: { Way Self };

    // Picks the next back, modulo the number of buffers, of which there are at most 4.
    fn pick(&mut self, back: u32) -> Pick
        ensures buffer { (count : ℕ) → back < count → count ≤ 4 → result.buffer % count ≡ way.picks self.old back count }
        ensures forget { result.forget ≡ way.forgets self.old }
        ensures after { self.new ≡ way.after self.old };
}
