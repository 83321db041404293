// A pane: a surface on the display, by its number on the shelf and the place of its upper left corner.
#[derive(Clone, Copy, PartialEq, Eq, Debug, Default)]
pub struct Pane {
    pub surface: u32,
    pub x: i32,
    pub y: i32,
}

impl Pane {
    // What stands in an unused slot of a stack.
    pub const NONE: Pane = Pane {
        surface: 0,
        x: 0,
        y: 0,
    };
}
