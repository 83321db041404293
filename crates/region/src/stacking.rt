ghost use Rattle.std.specs.Prelude.{◌≡◌, ℕ, ◌+◌, ◌<◌, ◌≤◌, Bool, true, false, ◌&&◌, ◌||◌, List, [], ◌∷◌, ◌++◌, length, take, drop, if◌then◌else◌, nat_le, is_ok};
ghost use Rattle.region_laws.specs.Spans.{spans};
ghost use Rattle.region_laws.specs.Bands.{same_row, row_boxes};
ghost use Rattle.region_laws.specs.Stacked.{lowered, goes_on, stacked, start_of_last};
ghost use Rattle.region.specs.Making.{pile_of, strip_of};

use crate::pile::{Full, Pile};
use crate::strip::Strip;
use region_laws::Rect;

// At most so many boxes make a region.
const MOST: usize = 32;

// Whether two lists of boxes have the same lefts and rights.
fn same_spans(xs: &[Rect], ys: &[Rect]) -> bool
    ensures { result ≡ same_row (spans xs.now) (spans ys.now) }
{
    if xs.len() != ys.len() {
        return false;
    }
    for i in 0..xs.len() {
        if xs[i].left != ys[i].left || xs[i].right != ys[i].right {
            return false;
        }
    }
    true
}

// Gives each box another bottom.
fn lower(bs: &mut [Rect], bottom: u32)
    ensures { bs.new ≡ lowered bottom bs.old }
{
    for b in bs.iter_mut() {
        b.bottom = bottom;
    }
}

impl Pile {
    // No band yet.
    pub(crate) fn new() -> Pile
        ensures list { pile_of result ≡ [] }
        ensures start { result.start ≡ 0 }
    {
        Pile {
            boxes: [Rect::NONE; 32],
            count: 0,
            start: 0,
        }
    }

    // Whether the last band goes on with `row` at `top`.
    pub(crate) fn goes_on(&self, row: &Strip, top: u32) -> bool
        ensures { result ≡ goes_on (pile_of self.now) self.now.start (strip_of row.now) top }
    {
        if self.start == self.count {
            return false;
        }
        if self.boxes[self.start].bottom != top {
            return false;
        }
        same_spans(
            &self.boxes[self.start..self.count],
            &row.boxes[0..row.count],
        )
    }

    // Lengthens the last band.
    pub(crate) fn lengthen(&mut self, bottom: u32)
        ensures list { pile_of self.new ≡ take self.old.start (pile_of self.old) ++ lowered bottom (drop self.old.start (pile_of self.old)) }
        ensures start { self.new.start ≡ self.old.start }
    {
        let from = self.start;
        let to = self.count;
        lower(&mut self.boxes[from..to], bottom);
    }

    // Puts one box behind the others; those stand as they were.
    pub(crate) fn push(&mut self, b: Rect)
        requires { self.old.count < 32 }
        ensures list { pile_of self.new ≡ pile_of self.old ++ b ∷ [] }
        ensures more { self.new.count ≡ self.old.count + 1 }
    {
        let n = self.count;
        self.boxes[n] = b;
        self.count = n + 1;
    }

    // Puts a new band under the others; those stand as they were.
    pub(crate) fn write_band(&mut self, row: &Strip, top: u32, bottom: u32)
        requires { self.old.count + row.now.count ≤ 32 }
        ensures list { pile_of self.new ≡ pile_of self.old ++ row_boxes top bottom (strip_of row.now) }
        ensures start { self.new.start ≡ self.old.count }
    {
        let from = self.count;
        for k in 0..row.count {
            let b = row.boxes[k];
            self.push(Rect {
                left: b.left,
                top,
                right: b.right,
                bottom,
            });
        }
        self.start = from;
    }

    // One more row, from `top` down to `bottom`. Where it does not fit, all stands as it was.
    pub(crate) fn append(&mut self, row: &Strip, top: u32, bottom: u32) -> Result<(), Full>
        ensures fits { is_ok result ≡ nat_le (length (stacked (pile_of self.old) self.old.start (strip_of row.now) top bottom)) 32 }
        ensures list { pile_of self.new ≡ (if is_ok result then stacked (pile_of self.old) self.old.start (strip_of row.now) top bottom else pile_of self.old) }
        ensures start { self.new.start ≡ (if is_ok result then start_of_last (pile_of self.old) self.old.start (strip_of row.now) top else self.old.start) }
    {
        if row.count == 0 {
            return Ok(());
        }
        if self.goes_on(row, top) {
            self.lengthen(bottom);
            return Ok(());
        }
        if self.count + row.count > MOST {
            return Err(Full);
        }
        self.write_band(row, top, bottom);
        Ok(())
    }
}
