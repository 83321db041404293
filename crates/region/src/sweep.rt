ghost use Rattle.std.specs.Prelude.{◌≡◌, ℕ, ◌+◌, ◌-◌, ◌<◌, ◌≤◌, Bool, true, false, List, [], ◌∷◌, ◌++◌, length, MatchResult, slice_index_or};
ghost use Rattle.region_laws.specs.Boxes.{no_box};
ghost use Rattle.region_laws.specs.Spans.{row_at, Plain};
ghost use Rattle.region_laws.specs.Listed.{high};
ghost use Rattle.region_laws.specs.Joined.{union};
ghost use Rattle.region.specs.Making.{pile_of};

use crate::bands::Bands;
use crate::pile::{Full, Pile};
use crate::strip::Strip;
use region_laws::Rect;

impl<'a> Bands<'a> {
    // How far down they go.
    fn lowest(&self) -> u32
        ensures { result ≡ high self.now.boxes.now }
    {
        match self.boxes.last() {
            Some(b) => b.bottom,
            None => 0,
        }
    }

    // How many boxes lie above row y; the first `above` are known to, and are not looked at again.
    fn count_above(&self, above: usize, y: u32) -> usize
        requires known { (m : ℕ) → m < above → (slice_index_or self.now.boxes.now m no_box).bottom ≤ y }
        requires within { above ≤ length self.now.boxes.now }
        ensures within { result ≤ length self.now.boxes.now }
        ensures above { (m : ℕ) → m < result → (slice_index_or self.now.boxes.now m no_box).bottom ≤ y }
        ensures first { result < length self.now.boxes.now → y < (slice_index_or self.now.boxes.now result no_box).bottom }
    {
        let rest = &self.boxes[above..];
        above + rest.iter().position(|b| b.bottom > y).unwrap_or(rest.len())
    }

    // The boxes that have row y, where the first `above` lie above it and no more.
    fn row(&self, above: usize, y: u32) -> &'a [Rect]
        requires within { above ≤ length self.now.boxes.now }
        requires above { (m : ℕ) → m < above → (slice_index_or self.now.boxes.now m no_box).bottom ≤ y }
        requires first { above < length self.now.boxes.now → y < (slice_index_or self.now.boxes.now above no_box).bottom }
        ensures row { result.now ≡ row_at y self.now.boxes.now }
        ensures few { length result.now ≤ 32 }
    {
        let rest = &self.boxes[above..];
        let here = rest.iter().position(|b| b.top > y).unwrap_or(rest.len());
        &rest[..here]
    }

    // An edge past y and not past `end`, such that no box begins or ends between y and it; the first `above` boxes lie
    // above y and no more.
    fn next_edge(&self, above: usize, y: u32, end: u32) -> u32
        requires past { y < end }
        requires above { (m : ℕ) → m < above → (slice_index_or self.now.boxes.now m no_box).bottom ≤ y }
        requires first { above < length self.now.boxes.now → y < (slice_index_or self.now.boxes.now above no_box).bottom }
        ensures past { y < result }
        ensures within { result ≤ end }
        ensures plain { Plain self.now.boxes.now y result }
    {
        match self.boxes.get(above) {
            Some(b) if y < b.top => b.top.min(end),
            Some(b) => b.bottom.min(end),
            None => end,
        }
    }

    // The union of these boxes and others, or `Full` where it has more than 32 boxes. It goes down strip by strip, from
    // edge to edge: in each it merges the spans of both. How many boxes of each lie above a strip is kept from strip to
    // strip, so that no box is passed twice.
    pub(crate) fn unite(&self, other: &Bands) -> Result<Pile, Full>
        ensures { MatchResult result (λ p. pile_of p ≡ union self.now.boxes.now other.now.boxes.now) (λ _. 32 < length (union self.now.boxes.now other.now.boxes.now)) }
    {
        let end = self.lowest().max(other.lowest());
        let mut p = Pile::new();
        let mut row = Strip::new();
        let mut y = 0;
        let mut above = 0;
        let mut other_above = 0;
        while y < end {
            above = self.count_above(above, y);
            other_above = other.count_above(other_above, y);
            let edge = other.next_edge(other_above, y, self.next_edge(above, y, end));
            row.merge(self.row(above, y), other.row(other_above, y));
            p.append(&row, y, edge)?;
            y = edge;
        }
        Ok(p)
    }
}
