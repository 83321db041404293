ghost use Rattle.std.specs.Prelude.{◌≡◌, cond, length, nat_lt};
ghost use Rattle.reference.specs.Stack.{height_of, pane};
ghost use Rattle.reference.specs.Refusals.{most};
ghost use Rattle.reference.specs.Steps.{placing, moving_at, lifting_at, removing_at, telling_at};
ghost use Rattle.scene.specs.States.{state_of};

use crate::boxes::shown_box;
use crate::known::Known;
use crate::scene::Scene;
use region::{Display, Rect};

// What the calls of a panel make of its scene. Each is given the display, which a scene, by its fixed form, has no field
// for.
impl Scene {
    // Puts a pane on top, if there are fewer than 16.
    pub fn place(&mut self, display: &Display, known: Known, x: i32, y: i32)
        ensures { state_of self.new ≡ cond (nat_lt (length (state_of self.old).stack) most)
            (placing display.now.width display.now.height known.whole (pane known.number x y) (state_of self.old)) (state_of self.old) }
    {
        if self.panes().len() < 16 {
            let pane = known.pane(x, y);
            self.push(pane);
            self.note(&shown_box(display, pane, known.whole));
        }
    }

    // Gives the pane of a surface another place, at the same height.
    pub fn move_to(&mut self, display: &Display, known: Known, x: i32, y: i32)
        ensures { state_of self.new ≡ moving_at display.now.width display.now.height known.whole
            (height_of known.number (state_of self.old).stack) (pane known.number x y) (state_of self.old) }
    {
        if let Some(i) = self.height_of(known.number) {
            let pane = known.pane(x, y);
            let old = self.pane_at(i);
            self.set(i, pane);
            self.note(&shown_box(display, old, known.whole));
            self.note(&shown_box(display, pane, known.whole));
        }
    }

    // Takes out the pane of a surface and puts it back with so many panes under it, or on top where there are fewer.
    pub fn lift(&mut self, display: &Display, known: Known, under: usize)
        ensures { state_of self.new ≡ lifting_at display.now.width display.now.height known.whole
            (height_of known.number (state_of self.old).stack) under (state_of self.old) }
    {
        if let Some(i) = self.height_of(known.number) {
            let pane = self.pane_at(i);
            self.take_out(i);
            self.put_in(under, pane);
            self.note(&shown_box(display, pane, known.whole));
        }
    }

    // Takes off the pane of a surface.
    pub fn remove(&mut self, display: &Display, known: Known)
        ensures { state_of self.new ≡ removing_at display.now.width display.now.height known.whole
            (height_of known.number (state_of self.old).stack) (state_of self.old) }
    {
        if let Some(i) = self.height_of(known.number) {
            let gone = self.pane_at(i);
            self.take_out(i);
            self.note(&shown_box(display, gone, known.whole));
        }
    }

    // Notes that a box of a surface is damaged, if the surface is on the stack.
    pub fn damage(&mut self, display: &Display, surface: u32, b: Rect)
        ensures { state_of self.new ≡ telling_at display.now.width display.now.height b
            (height_of surface (state_of self.old).stack) (state_of self.old) }
    {
        if let Some(i) = self.height_of(surface) {
            let pane = self.pane_at(i);
            self.note(&shown_box(display, pane, b));
        }
    }
}
