ghost use Rattle.std.specs.Prelude.{◌≡◌, ◌*◌, ◌<◌, ◌≤◌, length, ◌==◌};

// A surface that shows one of its pages. They stand one after the other in the caller's memory, each in rows from the
// top. A closed sheet has both sides 0.
#[derive(Drop)]
pub struct Sheet<'a, P> {
    pub(crate) cells: &'a [P],
    pub(crate) width: u32,
    pub(crate) height: u32,
    pub(crate) pages: u32,
    pub(crate) page: u32,
    ghost wide: { width ≤ 1024 },
    ghost high: { height ≤ 1024 },
    ghost both: { (width == 0) ≡ (height == 0) },
    ghost few: { pages ≤ 64 },
    ghost shown: { page < pages },
    ghost room: { length cells.now ≡ pages * (width * height) },
}
