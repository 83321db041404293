ghost use Rattle.std.specs.Prelude.{◌≡◌};
ghost use Rattle.reference.specs.Places.{past};
ghost use Rattle.panel.specs.Sights.{between as kept, spot_at, sights_of, Descends};

use crate::sight::{Descent, Sight, Sights, Spot};

// How far `at` lies past `from`, if that is from `low` up to and without `high`.
fn offset(at: u32, from: i32, low: u32, high: u32) -> Option<u32>
    ensures { result ≡ kept low high (past at from) }
{
    let d = u32::try_from(i64::from(at) - i64::from(from)).ok()?;
    (low <= d && d < high).then_some(d)
}

impl Sight {
    // The place of its surface that the pane shows at (x, y), if it covers that place.
    pub(crate) fn spot(&self, x: u32, y: u32) -> Option<Spot>
        ensures { result ≡ spot_at x y self.now }
    {
        let x = offset(x, self.pane.x, self.whole.left, self.whole.right)?;
        let y = offset(y, self.pane.y, self.whole.top, self.whole.bottom)?;
        Some(Spot { x, y })
    }
}

impl Sights {
    // Goes down the stack to the first pane whose solid box covers (x, y), and counts the panes that cover it.
    pub(crate) fn descend(&self, x: u32, y: u32) -> Descent
        ensures { Descends (sights_of self.now) x y result.from result.laid }
    {
        let mut laid = 0;
        // from the top down by slices: where the way ends, what is left has the height to begin at
        let mut rest = self.all.as_slice();
        while let [below @ .., sight] = rest {
            rest = below;
            if let Some(at) = sight.spot(x, y) {
                laid += 1;
                if sight.solid.covers(at.x, at.y) {
                    let from = rest.len();
                    return Descent { from, laid };
                }
            }
        }
        Descent { from: 0, laid }
    }
}
