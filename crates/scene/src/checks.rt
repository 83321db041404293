ghost use Rattle.std.specs.Prelude.{◌≡◌, true, false, ◌||◌, is_some, MatchResult};
ghost use Rattle.reference.specs.declared.refusal.Refusal.TheVariants.{TooFar};
ghost use Rattle.reference.specs.Refusals.{below, far, on_stack, place_refusal, move_refusal, lift_refusal, remove_refusal, tell_refusal};
ghost use Rattle.scene.specs.States.{state_of};
ghost use Rattle.scene.specs.Checks.{accepted, Allows};

use crate::known::Known;
use crate::scene::Scene;
use reference::Refusal;

// Whether a number is from 0 and below a count.
fn is_below(k: i32, count: usize) -> bool
    ensures { result ≡ below k count }
{
    usize::try_from(k).is_ok_and(|k| k < count)
}

// Whether a place is below -2,048 or above 2,047.
fn too_far(v: i32) -> bool
    ensures { result ≡ far v }
{
    !(-2048..=2047).contains(&v)
}

// Refuses a place (x, y) that is too far.
fn check_near(surface: i32, x: i32, y: i32) -> Result<(), Refusal>
    ensures { MatchResult result (λ _. (far x || far y) ≡ false) (λ e. ((far x || far y) ≡ true) × (e ≡ TooFar surface)) }
{
    if too_far(x) || too_far(y) {
        return Err(Refusal::TooFar(surface));
    }
    Ok(())
}

// The first refusal that a tell meets. `there` says whether the shelf has the surface and it is not closed, and `taken`
// whether it takes the order. A panel learns the second only by passing the order on, so the
// call is there for other callers.
pub fn check_tell(there: bool, taken: bool, surface: i32) -> Result<(), Refusal>
    ensures { result ≡ accepted (tell_refusal there taken surface) }
{
    if !there {
        return Err(Refusal::NoSurface(surface));
    }
    if !taken {
        return Err(Refusal::NotTaken(surface));
    }
    Ok(())
}

// The first refusal that a call meets, over the stack, or the surface that it names; the numbers are any that a caller
// gives. `found` is the surface, if the shelf has it and it is not closed; `surface` is its number as it was given, which
// a refusal names also where nothing was found.
impl Scene {
    // Whether a surface is on the stack; a negative number, which a panel's `find` refuses before, is looked up as 0.
    fn holds(&self, surface: i32) -> bool
        ensures { result ≡ on_stack (state_of self.now).stack surface }
    {
        let number = u32::try_from(surface).unwrap_or(0);
        self.height_of(number).is_some()
    }

    // The refusals of a place: no surface, already placed, stack full, too far.
    pub fn check_place(
        &self,
        found: Option<Known>,
        surface: i32,
        x: i32,
        y: i32,
    ) -> Result<Known, Refusal>
        ensures { Allows found (place_refusal (is_some found) (state_of self.now).stack surface x y) result }
    {
        let placed = found.ok_or(Refusal::NoSurface(surface))?;
        if self.holds(surface) {
            return Err(Refusal::AlreadyPlaced(surface));
        }
        if self.panes().len() >= 16 {
            return Err(Refusal::StackFull(surface));
        }
        check_near(surface, x, y)?;
        Ok(placed)
    }

    // The refusals of a remove: no surface, not placed.
    pub fn check_remove(&self, found: Option<Known>, surface: i32) -> Result<Known, Refusal>
        ensures { Allows found (remove_refusal (is_some found) (state_of self.now).stack surface) result }
    {
        let removed = found.ok_or(Refusal::NoSurface(surface))?;
        if !self.holds(surface) {
            return Err(Refusal::NotPlaced(surface));
        }
        Ok(removed)
    }

    // The refusals of a move: those of a remove, then too far.
    pub fn check_move(
        &self,
        found: Option<Known>,
        surface: i32,
        x: i32,
        y: i32,
    ) -> Result<Known, Refusal>
        ensures { Allows found (move_refusal (is_some found) (state_of self.now).stack surface x y) result }
    {
        let moved = self.check_remove(found, surface)?;
        check_near(surface, x, y)?;
        Ok(moved)
    }

    // The refusals of a lift with so many panes under it: those of a remove, then bad height.
    pub fn check_lift(
        &self,
        found: Option<Known>,
        surface: i32,
        under: i32,
    ) -> Result<Known, Refusal>
        ensures { Allows found (lift_refusal (is_some found) (state_of self.now).stack surface under) result }
    {
        let lifted = self.check_remove(found, surface)?;
        if !is_below(under, self.panes().len()) {
            return Err(Refusal::BadHeight(surface));
        }
        Ok(lifted)
    }
}
