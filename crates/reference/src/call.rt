use surface::Order;

// A call of the panel, with its numbers as the caller gives them.
#[derive(Clone, Copy, PartialEq, Eq, Debug)]
pub enum Call {
    // puts a surface on top of the stack, its corner at (x, y)
    Place { surface: i32, x: i32, y: i32 },
    // sets a pane's place
    Move { surface: i32, x: i32, y: i32 },
    // takes a pane out and puts it back with so many panes under it
    Lift { surface: i32, under: i32 },
    // takes a pane off
    Remove { surface: i32 },
    // passes an order on to a surface
    Tell { surface: i32, order: Order },
    // makes and shows a frame
    Show,
}
