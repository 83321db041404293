// A box as it is asked for, of any place and size: it covers the pixels with left <= x < right and top <= y < bottom,
// which may lie off the display, or be none.
#[derive(Clone, Copy, PartialEq, Eq, Debug)]
pub struct SignedRect {
    pub left: i32,
    pub top: i32,
    pub right: i32,
    pub bottom: i32,
}
