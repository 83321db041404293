ghost use Rattle.std.specs.Prelude.{◌≡◌, ◌+◌, ◌<◌, ◌≤◌, length, IfSome, slice_index_or};
ghost use Rattle.std.specs.List.{insert, remove};
ghost use Rattle.reference.specs.Stack.{height_of, no_pane, placed, moved};
ghost use Rattle.scene.specs.States.{state_of, stacked};

use crate::scene::Scene;
use reference::Pane;

// How many panes lie under the first of a surface, if there is one.
fn find(panes: &[Pane], surface: u32) -> Option<usize>
    ensures height { result ≡ height_of surface panes.now }
    ensures below { IfSome result (λ i. i < length panes.now) }
{
    panes.iter().position(|pane| pane.surface == surface)
}

impl Scene {
    // The stack, bottom first.
    pub fn panes(&self) -> &[Pane]
        ensures stack { result.now ≡ (state_of self.now).stack }
        ensures few { length result.now ≤ 16 }
    {
        &self.panes[0..self.count]
    }

    // How many panes lie under that of a surface, if it is on the stack.
    pub fn height_of(&self, surface: u32) -> Option<usize>
        ensures height { result ≡ height_of surface (state_of self.now).stack }
        ensures below { IfSome result (λ i. i < length (state_of self.now).stack) }
    {
        find(self.panes(), surface)
    }

    // The pane at a height.
    pub(crate) fn pane_at(&self, i: usize) -> Pane
        requires { i < length (state_of self.now).stack }
        ensures { result ≡ slice_index_or (state_of self.now).stack i no_pane }
    {
        self.panes()[i]
    }

    // Puts a pane on top.
    pub(crate) fn push(&mut self, pane: Pane)
        requires { self.old.count < 16 }
        ensures stack { state_of self.new ≡ stacked (placed pane (state_of self.old).stack) (state_of self.old) }
        ensures more { self.new.count ≡ self.old.count + 1 }
    {
        self.panes[self.count] = pane;
        self.count += 1;
    }

    // Puts another pane at a height.
    pub(crate) fn set(&mut self, i: usize, pane: Pane)
        requires { i < length (state_of self.old).stack }
        ensures { state_of self.new ≡ stacked (moved i pane (state_of self.old).stack) (state_of self.old) }
    {
        self.panes[i] = pane;
    }

    // Takes off the pane at a height; those above it come down by one.
    pub(crate) fn take_out(&mut self, i: usize)
        requires { i < length (state_of self.old).stack }
        ensures stack { state_of self.new ≡ stacked (remove (state_of self.old).stack i) (state_of self.old) }
        ensures room { self.new.count < 16 }
    {
        self.panes[i..self.count].rotate_left(1);
        self.count -= 1;
    }

    // Puts a pane at a height; those from there on come up by one. Past the top is on top.
    pub(crate) fn put_in(&mut self, under: usize, pane: Pane)
        requires { self.old.count < 16 }
        ensures { state_of self.new ≡ stacked (insert (state_of self.old).stack under pane) (state_of self.old) }
    {
        let at = under.min(self.count);
        self.push(pane);
        self.panes[at..self.count].rotate_right(1);
    }
}
