ghost use Rattle.std.specs.Prelude.{◌≡◌, ◌-◌, ◌≤◌, length, drop, replicate};
ghost use Rattle.region_laws.specs.Boxes.{no_box};

use region_laws::Rect;

// A region being made from the top down: the first `count` of `boxes`, of which those from `start` on are the last band.
// It is an array with a count, as `Region` is, which it becomes as it stands; by the library's `ArrayVec`, which is copied
// over and blanks what it clears, a join took over 1.5 times as long. The same holds of `Strip`.
#[derive(Clone, Copy, Drop)]
pub struct Pile {
    pub boxes: [Rect; 32],
    pub count: usize,
    pub start: usize,
    ghost size: { length boxes ≡ 32 },
    ghost few: { count ≤ 32 },
    ghost begun: { start ≤ count },
    ghost rest: { drop count boxes ≡ replicate (32 - count) no_box },
}

// Why a row can't be added: the region would have more boxes than it can hold.
#[derive(Clone, Copy, PartialEq, Eq, Debug)]
pub struct Full;
