ghost use Rattle.std.specs.Prelude.{◌≡◌, take, fold};
ghost use Rattle.region_laws.specs.Joined.{joined};
ghost use Rattle.region.specs.Lists.{list_of};
ghost use Rattle.reference.specs.Damage.{opening, noted, shifted, stated as repainted};
ghost use Rattle.scene.specs.States.{state_of, stored};

use crate::scene::Scene;
use reference::Pane;
use region::{Display, Region};

impl Scene {
    // Before the first show: an empty stack, no past damage, and the whole display pending.
    pub fn open(display: &Display) -> Scene
        ensures { state_of result ≡ opening display.now.width display.now.height }
    {
        let none = Region::empty();
        Scene {
            panes: [Pane::NONE; 16],
            count: 0,
            pending: display.whole(),
            ago_1: none,
            ago_2: none,
            ago_3: none,
            ago_4: none,
            ago_5: none,
            ago_6: none,
            ago_7: none,
            shows: 0,
        }
    }

    // One region more is pending.
    pub(crate) fn note(&mut self, damage: &Region)
        ensures { state_of self.new ≡ noted (list_of damage.now) (state_of self.old) }
    {
        self.pending = self.pending.join(damage);
    }

    // Stores a region as the newest past damage. The oldest of seven is forgotten.
    fn store(&mut self, damage: Region)
        ensures { state_of self.new ≡ stored (list_of damage) (state_of self.old) }
    {
        self.ago_7 = self.ago_6;
        self.ago_6 = self.ago_5;
        self.ago_5 = self.ago_4;
        self.ago_4 = self.ago_3;
        self.ago_3 = self.ago_2;
        self.ago_2 = self.ago_1;
        self.ago_1 = damage;
        if self.shows < 7 {
            self.shows += 1;
        }
    }

    // After a show: pending is stored as the newest past damage, and emptied.
    pub fn shift(&mut self)
        ensures { state_of self.new ≡ shifted (state_of self.old) }
    {
        self.store(self.pending);
        self.pending = Region::empty();
    }

    // Pending joined with the newest n past damages, or all if there are fewer, newest first.
    fn with_past(&self, n: usize) -> Region
        ensures { list_of result ≡ fold joined (state_of self.now).pending (take n (state_of self.now).past) }
    {
        let past = [
            &self.ago_1,
            &self.ago_2,
            &self.ago_3,
            &self.ago_4,
            &self.ago_5,
            &self.ago_6,
            &self.ago_7,
        ];
        let mut all = self.pending;
        for damage in &past[..n.min(self.shows)] {
            all = all.join(damage);
        }
        all
    }

    // The region that a show repaints in a buffer of this age; at 0, contents unknown, and past 8 it is the whole display.
    pub fn stated(&self, display: &Display, age: u8) -> Region
        ensures { list_of result ≡ repainted display.now.width display.now.height age (state_of self.now) }
    {
        match age {
            1..=8 => self.with_past(usize::from(age) - 1),
            _ => display.whole(),
        }
    }
}
