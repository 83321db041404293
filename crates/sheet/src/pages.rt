ghost use Rattle.std.specs.Prelude.{◌≡◌, ◌*◌, ◌<◌, ◌≤◌, true, length};
ghost use Rattle.sheet.specs.Sheets.{damage, page_of, shown, told, opening, fitting, Fresh};

use crate::page::{Page, part};
use crate::sheet::Sheet;
use pixel::Pixel;
use region_laws::Rect;

// Whether a memory of this length is exactly n pages of w by h pixels, and these numbers are in range. (By `as` here and
// below: Rust has no `From<u32>` for `usize`.)
fn fits(w: u32, h: u32, n: u32, long: usize) -> bool
    ensures { result ≡ fitting w h n long }
{
    (1..=1024).contains(&w)
        && (1..=1024).contains(&h)
        && (1..=64).contains(&n)
        && long == n as usize * (w * h) as usize
}

impl<'a, P: Pixel> Sheet<'a, P> {
    // A sheet that shows the first of n pages of w by h pixels. It is closed where a side is not 1 to 1,024, there are
    // not 1 to 64 pages, or the memory has not exactly their length.
    pub fn new(cells: &'a [P], w: u32, h: u32, n: u32) -> Sheet<'a, P>
        ensures told { told P.Pixel.solid result ≡ opening P.Pixel.solid cells.now w h n }
        ensures holds { fitting w h n (length cells.now) ≡ true → Fresh cells.now w h n result }
    {
        if !fits(w, h, n, cells.len()) {
            return Sheet {
                cells: &cells[0..0],
                width: 0,
                height: 0,
                pages: 1,
                page: 0,
            };
        }
        Sheet {
            cells,
            width: w,
            height: h,
            pages: n,
            page: 0,
        }
    }

    // Page p.
    pub(crate) fn page_of(&self, p: u32) -> Page<'a, P>
        requires { p < self.now.pages }
        ensures is { result.pixels.now ≡ page_of self.now p }
        ensures wide { result.width ≡ self.now.width }
        ensures high { result.height ≡ self.now.height }
    {
        let area = (self.width * self.height) as usize;
        Page {
            pixels: part(self.cells, area, self.pages as usize, p as usize),
            width: self.width,
            height: self.height,
        }
    }

    // The page that the sheet shows.
    pub(crate) fn shown_page(&self) -> Page<'a, P>
        ensures is { result.pixels.now ≡ shown self.now }
        ensures wide { result.width ≡ self.now.width }
        ensures high { result.height ≡ self.now.height }
    {
        self.page_of(self.page)
    }

    // The smallest box over the places where page p differs from the page that the sheet shows.
    pub(crate) fn damage_to(&self, p: u32) -> Rect
        requires { p < self.now.pages }
        ensures { result ≡ damage P.Pixel.equal self.now p }
    {
        self.shown_page().difference(&self.page_of(p))
    }
}
