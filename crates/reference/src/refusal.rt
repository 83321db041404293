ghost use Rattle.std.specs.Prelude.{◌≡◌};
ghost use Rattle.reference.specs.Refusals.{number as number_of, layer as layer_of, place as place_of};

// Why a call is refused. Each but the first names the surface number that the call gave.
#[derive(Clone, Copy, PartialEq, Eq, Debug)]
pub enum Refusal {
    // a side of the chain is not 1 to 1,024
    BadDisplay,
    // the number is negative or not below the shelf's count, or the surface is closed
    NoSurface(i32),
    // the surface is on the stack already
    AlreadyPlaced(i32),
    // the surface is not on the stack
    NotPlaced(i32),
    // the stack has 16 panes
    StackFull(i32),
    // x or y is below -2,048 or above 2,047
    TooFar(i32),
    // the number of panes to go under is negative or not below the number of panes
    BadHeight(i32),
    // the surface refuses the order
    NotTaken(i32),
}

// The layer that refuses.
#[derive(Clone, Copy, PartialEq, Eq, Debug)]
pub enum Layer {
    Panel,
    Shelf,
}

impl Refusal {
    // The number that a refusal is told by, which is fixed.
    pub fn number(self) -> u8
        ensures { result ≡ number_of self }
    {
        match self {
            Refusal::BadDisplay => 3,
            Refusal::NoSurface(_) => 4,
            Refusal::AlreadyPlaced(_) => 5,
            Refusal::NotPlaced(_) => 6,
            Refusal::StackFull(_) => 7,
            Refusal::TooFar(_) => 8,
            Refusal::BadHeight(_) => 9,
            Refusal::NotTaken(_) => 10,
        }
    }

    // The layer that it comes from.
    pub fn layer(self) -> Layer
        ensures { result ≡ layer_of self }
    {
        match self {
            Refusal::NotTaken(_) => Layer::Shelf,
            _ => Layer::Panel,
        }
    }

    // The surface number that it names; 0 where it names none, as it is told.
    pub fn place(self) -> i32
        ensures { result ≡ place_of self }
    {
        match self {
            Refusal::BadDisplay => 0,
            Refusal::NoSurface(k)
            | Refusal::AlreadyPlaced(k)
            | Refusal::NotPlaced(k)
            | Refusal::StackFull(k)
            | Refusal::TooFar(k)
            | Refusal::BadHeight(k)
            | Refusal::NotTaken(k) => k,
        }
    }
}
