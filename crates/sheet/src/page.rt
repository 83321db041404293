ghost use Rattle.std.specs.Prelude.{◌≡◌, ◌*◌, ◌<◌, ◌≤◌, ◌&&◌, None, cond, length, nat_lt};
ghost use Rattle.std.specs.List.{list_all};
ghost use Rattle.surface.specs.Hull.{grown, across, hull};
ghost use Rattle.sheet.specs.Pages.{nth_page, pixel_at, differs, row_differs};

use pixel::Pixel;
use region_laws::Rect;

// One page of a sheet: its pixels in rows from the top, and its sides. Sides and places become lengths and back by `as`:
// Rust has no `From<u32>` for `usize`, and what is narrowed is proved to fit.
#[derive(Drop)]
pub(crate) struct Page<'a, P> {
    pub(crate) pixels: &'a [P],
    pub(crate) width: u32,
    pub(crate) height: u32,
    ghost wide: { width ≤ 1024 },
    ghost high: { height ≤ 1024 },
    ghost room: { length pixels.now ≡ height * width },
}

impl<'a, P: Pixel> Page<'a, P> {
    // Whether each pixel is solid.
    pub(crate) fn is_solid(&self) -> bool
        ensures { result ≡ list_all P.Pixel.solid self.now.pixels.now }
    {
        self.pixels.iter().all(|p| p.is_solid())
    }

    // The pixels of row y.
    fn row(&self, y: u32) -> &'a [P]
        requires { y < self.now.height }
        ensures is { result.now ≡ nth_page self.now.pixels.now self.now.width y }
        ensures long { length result.now ≡ self.now.width }
    {
        part(
            self.pixels,
            self.width as usize,
            self.height as usize,
            y as usize,
        )
    }

    // The pixel at (x, y), or None where the page has no such place.
    pub(crate) fn pixel(&self, x: u32, y: u32) -> Option<P>
        ensures { result ≡ cond (nat_lt x self.now.width && nat_lt y self.now.height) (pixel_at self.now.pixels.now self.now.width x y) None }
    {
        if x < self.width && y < self.height {
            Some(self.pixels[(y * self.width + x) as usize])
        } else {
            None
        }
    }

    // The smallest box over the places where a page of the same sides differs.
    pub(crate) fn difference(&self, other: &Page<P>) -> Rect
        requires { (other.now.width ≡ self.now.width) × (other.now.height ≡ self.now.height) }
        ensures { result ≡ hull (differs P.Pixel.equal self.now.width self.now.pixels.now other.now.pixels.now) self.now.width self.now.height }
    {
        let mut found = Rect::NONE;
        // by number and not in chunks, since y counts as a place too, and a page of no width has no chunks
        for y in 0..self.height {
            found = row_difference(self.row(y), other.row(y), y, found);
        }
        found
    }
}

// Part i of a memory that has n parts of this size.
pub(crate) fn part<P: Copy>(cells: &[P], size: usize, n: usize, i: usize) -> &[P]
    requires { (i < n) × (length cells.now ≡ n * size) }
    ensures is { result.now ≡ nth_page cells.now size i }
    ensures long { length result.now ≡ size }
{
    let from = i * size;
    &cells[from..from + size]
}

// The box, grown over the places of row y where two rows of one length differ.
fn row_difference<P: Pixel>(old: &[P], new: &[P], y: u32, found: Rect) -> Rect
    requires { (y < 1024) × ((length old.now ≤ 1024) × (length new.now ≡ length old.now)) }
    ensures { result ≡ across (row_differs P.Pixel.equal old.now new.now) y (length old.now) found }
{
    let mut reach = found;
    for (x, (a, b)) in old.iter().zip(new).enumerate() {
        if !a.same(*b) {
            reach = grow(reach, x as u32, y);
        }
    }
    reach
}

// The box, made as large as it must be to cover (x, y) too. Whether it covers anything is told by its sides alone, where
// a region's boxes are tested by both.
fn grow(b: Rect, x: u32, y: u32) -> Rect
    requires { (x < 1024) × (y < 1024) }
    ensures { result ≡ grown b x y }
{
    if b.left < b.right {
        Rect {
            left: b.left.min(x),
            top: b.top.min(y),
            right: b.right.max(x + 1),
            bottom: b.bottom.max(y + 1),
        }
    } else {
        Rect {
            left: x,
            top: y,
            right: x + 1,
            bottom: y + 1,
        }
    }
}
