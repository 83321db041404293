ghost use Rattle.std.specs.Prelude.{◌≡◌, ℕ, ◌+◌, ◌<◌, ◌≤◌, Bool, true, false, ◌||◌, List, [], ◌∷◌, ◌++◌, length};
ghost use Rattle.region_laws.specs.Spans.{spans, extend, First};
ghost use Rattle.region_laws.specs.Runs.{at, Ok};
ghost use Rattle.region.specs.Making.{strip_of};

use crate::strip::Strip;
use region_laws::Rect;

// Whether the next span is taken from `xs`.
fn takes_first(xs: &[Rect], i: usize, ys: &[Rect], j: usize) -> bool
    requires { (i ≤ length xs.now) × ((j ≤ length ys.now) × (i + j < length xs.now + length ys.now)) }
    ensures yes { result ≡ true → First xs.now i ys.now j }
    ensures other { result ≡ false → First ys.now j xs.now i }
{
    if j == ys.len() {
        return true;
    }
    if i == xs.len() {
        return false;
    }
    xs[i].left <= ys[j].left
}

impl Strip {
    // A row with no span.
    pub(crate) fn new() -> Strip
        ensures { strip_of result ≡ [] }
    {
        Strip {
            boxes: [Rect::NONE; 64],
            count: 0,
        }
    }

    // One more span, which starts at or after the start of the last: it lengthens the last where the two touch.
    pub(crate) fn add(&mut self, left: u32, right: u32)
        requires { self.old.count < 64 }
        ensures row { strip_of self.new ≡ extend (strip_of self.old) left right }
        ensures few { self.new.count ≤ self.old.count + 1 }
    {
        let n = self.count;
        let new = Rect {
            left,
            top: 0,
            right,
            bottom: 0,
        };
        if n == 0 {
            self.boxes[0] = new;
            self.count = 1;
            return;
        }
        let last = self.boxes[n - 1];
        if last.right < left {
            self.boxes[n] = new;
            self.count = n + 1;
        } else if last.right < right {
            self.boxes[n - 1].right = right;
        }
    }

    // Makes it the union of two rows.
    pub(crate) fn merge(&mut self, xs: &[Rect], ys: &[Rect])
        requires few { (length xs.now ≤ 32) × (length ys.now ≤ 32) }
        requires first { Ok false 0 (spans xs.now) }
        requires second { Ok false 0 (spans ys.now) }
        ensures tidy { Ok false 0 (strip_of self.new) }
        ensures set { (x : ℕ) → at false (strip_of self.new) x ≡ (at false (spans xs.now) x || at false (spans ys.now) x) }
    {
        self.count = 0;
        let mut i = 0;
        let mut j = 0;
        while i + j < xs.len() + ys.len() {
            if takes_first(xs, i, ys, j) {
                self.add(xs[i].left, xs[i].right);
                i += 1;
            } else {
                self.add(ys[j].left, ys[j].right);
                j += 1;
            }
        }
    }
}
