// The sides of a surface, in pixels. A surface whose sides are 0 is closed: it has no pixel and takes no order.
// Surfaces are made by calls that cannot fail: from numbers that do not fit they make a closed one.
#[derive(Clone, Copy, PartialEq, Eq, Debug)]
pub struct Size {
    pub width: u32,
    pub height: u32,
}
