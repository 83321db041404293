ghost use Rattle.std.specs.Prelude.{◌≤◌};

use crate::reading::Reading;

// A surface that shows a number in four characters, in an ink on a paper pixel. A closed figure has scale 0.
#[derive(Drop)]
pub struct Figure<P> {
    pub(crate) scale: u32,
    pub(crate) shown: Reading,
    pub(crate) ink: P,
    pub(crate) paper: P,
    ghost small: { scale ≤ 8 },
}
