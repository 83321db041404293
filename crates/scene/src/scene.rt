ghost use Rattle.std.specs.Prelude.{◌≡◌, ◌≤◌, length};

use reference::Pane;
use region::Region;

// What a panel keeps of its picture, in the fixed form that the project wants: plain arrays and fields, copied by value.
// The stack is the first `count` of `panes`, bottom first. `pending` is what is
// damaged since the last show. `ago_1` to `ago_7` are the regions that were pending at the last seven shows, newest
// first, of which the first `shows` are there; a show shifts them by value.
#[derive(Clone, Copy)]
pub struct Scene {
    pub(crate) panes: [Pane; 16],
    pub(crate) count: usize,
    pub(crate) pending: Region,
    pub(crate) ago_1: Region,
    pub(crate) ago_2: Region,
    pub(crate) ago_3: Region,
    pub(crate) ago_4: Region,
    pub(crate) ago_5: Region,
    pub(crate) ago_6: Region,
    pub(crate) ago_7: Region,
    pub(crate) shows: usize,
    ghost size: { length panes ≡ 16 },
    ghost few: { count ≤ 16 },
    ghost kept: { shows ≤ 7 },
}
