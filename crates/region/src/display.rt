ghost use Rattle.std.specs.Prelude.{◌<◌, ◌≤◌};

// A display of `width` by `height` pixels, each 1 to 1,024; x counts right and y down, from 0.
#[derive(Clone, Copy, PartialEq, Eq, Debug)]
pub struct Display {
    pub width: u32,
    pub height: u32,
    ghost wide: { 0 < width },
    ghost high: { 0 < height },
    ghost narrow: { width ≤ 1024 },
    ghost low: { height ≤ 1024 },
}
