// What several tests begin with: boxes, a display, and a panel that opens.
use chain::Chain;
use panel::Panel;
use region::{Display, Rect, SignedRect};
use std::test::Fail;
use surface::Shelf;

pub(crate) fn rect(left: u32, top: u32, right: u32, bottom: u32) -> Rect {
    Rect {
        left,
        top,
        right,
        bottom,
    }
}

pub(crate) fn signed(left: i32, top: i32, right: i32, bottom: i32) -> SignedRect {
    SignedRect {
        left,
        top,
        right,
        bottom,
    }
}

pub(crate) fn display(width: u32, height: u32) -> Result<Display, Fail> {
    Display::new(width, height).ok_or_else(|| Fail::new("no display"))
}

// A panel of base 1 on a shelf and a chain. It is used in functions that are generic over the chain: one over a named
// chain gets no proof.
pub(crate) fn opened<S: Shelf<u8> + Drop, C: Chain<u8> + Drop>(
    shelf: S,
    chain: C,
) -> Result<Panel<u8, S, C>, Fail> {
    Panel::open(shelf, chain, 1).map_err(|_| Fail::new("not opened"))
}
