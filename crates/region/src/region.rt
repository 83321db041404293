ghost use Rattle.std.specs.Prelude.{◌≡◌, ◌-◌, ◌≤◌, true, length, take, drop, replicate};
ghost use Rattle.region_laws.specs.Bands.{banded as all_banded};
ghost use Rattle.region_laws.specs.Boxes.{no_box};

use region_laws::Rect;

// A set of display pixels: the first `count` of `boxes`, a banded list. The boxes past them are (0, 0, 0, 0), so that
// regions of the same pixels are the same in every part; a list of the library's would leave those places open.
#[derive(Clone, Copy, PartialEq, Eq)]
pub struct Region {
    pub(crate) boxes: [Rect; 32],
    pub(crate) count: usize,
    ghost size: { length boxes ≡ 32 },
    ghost few: { count ≤ 32 },
    ghost banded: { all_banded (take count boxes) ≡ true },
    ghost rest: { drop count boxes ≡ replicate (32 - count) no_box },
}
