ghost use Rattle.std.specs.Prelude.{◌≡◌};
ghost use Rattle.replies.specs.Refusals.{number as number_of, as_told, layer as layer_of, place as place_of};

use reference::Refusal;

// Why a line of a script is refused.
#[derive(Clone, Copy, PartialEq, Eq, Debug)]
pub enum Refused {
    // the line is no record: the field of this number is bad, missing or too many
    NotARecord { place: usize },
    // the record is out of turn, told as the place 0, or its field of this number is out of range
    OutOfTurn { place: usize },
    // the panel refuses the call
    Panel(Refusal),
}

// The layer that refuses: the three words that are told, in one list.
#[derive(Clone, Copy, PartialEq, Eq, Debug)]
pub enum Layer {
    Script,
    Panel,
    Shelf,
}

impl From<reference::Layer> for Layer {
    ghost from_gives = { λ x y. y ≡ as_told x };

    fn from(layer: reference::Layer) -> Layer {
        match layer {
            reference::Layer::Panel => Layer::Panel,
            reference::Layer::Shelf => Layer::Shelf,
        }
    }
}

impl Refused {
    // The number that a refusal is told by: fixed, 1 and 2 before the panel's own.
    pub fn number(self) -> u8
        ensures { result ≡ number_of self }
    {
        match self {
            Refused::NotARecord { .. } => 1,
            Refused::OutOfTurn { .. } => 2,
            Refused::Panel(refusal) => refusal.number(),
        }
    }

    // The layer that it comes from.
    pub fn layer(self) -> Layer
        ensures { result ≡ layer_of self }
    {
        match self {
            Refused::NotARecord { .. } | Refused::OutOfTurn { .. } => Layer::Script,
            Refused::Panel(refusal) => Layer::from(refusal.layer()),
        }
    }

    // The field's number, or for a refusal of the panel the surface number that it names.
    pub fn place(self) -> i128
        ensures { result ≡ place_of self }
    {
        match self {
            // every usize is an i128, but Rust has no From for it
            Refused::NotARecord { place } | Refused::OutOfTurn { place } => place as i128,
            Refused::Panel(refusal) => i128::from(refusal.place()),
        }
    }
}
