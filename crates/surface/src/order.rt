// What a caller asks of one surface: what to do, and two numbers. What the three mean is the surface's own, so `act` is a
// number and no enum.
#[derive(Clone, Copy, PartialEq, Eq, Debug)]
pub struct Order {
    pub act: i32,
    pub a: i32,
    pub b: i32,
}

// The surface does not exist, is closed, or does not take the order.
#[derive(Clone, Copy, PartialEq, Eq, Debug)]
pub struct OrderRefused;
