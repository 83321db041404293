ghost use Rattle.std.specs.Prelude.{◌≡◌, ◌≤◌, length};

use region_laws::Rect;

// A row being made from left to right: the lefts and rights of the first `count` of `boxes`.
#[derive(Clone, Copy)]
pub struct Strip {
    pub boxes: [Rect; 64],
    pub count: usize,
    ghost size: { length boxes ≡ 64 },
    ghost few: { count ≤ 64 },
}
