ghost use Rattle.std.specs.Prelude.{◌≡◌, ◌<◌, ◌≤◌, true, nat_lt, find, unwrap_or, IfSome};
ghost use Rattle.std.specs.List.{list_all};
ghost use Rattle.region_laws.specs.Boxes.{no_box};
ghost use Rattle.figure.specs.Figures.{inked, unlike, damage as smallest};

use crate::glyphs::row_bits;
use crate::reading::Reading;
use region_laws::Rect;

// Whether the number has ink in this column of this row, at scale 1.
pub(crate) fn has_ink(v: Reading, column: u32, row: u32) -> bool
    requires { (column < 15) × (row < 5) }
    ensures { result ≡ inked v.value column row }
{
    let part = column % 4;
    if part < 3 {
        // Rust has no `From<u32>` for `usize`
        let bits = row_bits(v.cell(column / 4), row as usize);
        (bits >> (2 - part)) % 2 == 1
    } else {
        false
    }
}

// What changes where another number takes this one's place.
impl Reading {
    // Whether the character in cell i changes.
    #[inline(always)]
    fn changes(self, next: Reading, i: u32) -> bool
        ensures { result ≡ unlike self.value next.value i }
    {
        self.cell(i) != next.cell(i)
    }

    // The first of these cells whose character changes.
    #[inline(always)]
    #[tactic(auto, using(crate::proofs::Changes::few))]
    fn first_changed(self, next: Reading, cells: &[u32]) -> Option<u32>
        requires { list_all (λ i. nat_lt i 4) cells.now ≡ true }
        ensures is { result ≡ find (unlike self.value next.value) cells.now }
        ensures inside { IfSome result (λ i. i < 4) }
    {
        cells.iter().copied().find(|i| self.changes(next, *i))
    }

    // The box from the first to the last cell whose character changes.
    #[tactic(auto, using(crate::proofs::Changes::ends_damage, crate::proofs::Changes::none_damage, crate::proofs::Changes::one_damage))]
    fn span(self, next: Reading, z: u32) -> Option<Rect>
        requires { (0 < z) × (z ≤ 8) }
        ensures { unwrap_or result no_box ≡ smallest self.value next.value z }
    {
        let first = self.first_changed(next, &[0, 1, 2, 3])?;
        let last = self.first_changed(next, &[3, 2, 1, 0])?;
        Some(Rect {
            left: 4 * z * first,
            top: 0,
            right: 4 * z * last + 3 * z,
            bottom: 5 * z,
        })
    }

    // The smallest box over the cells whose character changes, at scale z.
    pub(crate) fn damage(self, next: Reading, z: u32) -> Rect
        requires { (0 < z) × (z ≤ 8) }
        ensures { result ≡ smallest self.value next.value z }
    {
        self.span(next, z).unwrap_or(Rect::NONE)
    }
}
