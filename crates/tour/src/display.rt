use crate::frames::{Ink, View, print_outcome, print_told, show_frame};
use chain::Chain;
use chains::Rotating;
use figure::{Figure, show_number};
use panel::Panel;
use sheet::Sheet;
use std::io;
use surface::{Pair, Shelf};

const VIEW: View<'static, u8> = View {
    width: 24,
    height: 8,
    legend: &LEGEND,
};

const LEGEND: [Ink<u8>; 4] = [
    Ink {
        pixel: 1,
        letter: '.',
    },
    Ink {
        pixel: 2,
        letter: 'o',
    },
    Ink {
        pixel: 3,
        letter: '-',
    },
    Ink {
        pixel: 7,
        letter: '#',
    },
];

// Places both surfaces, moves the figure and lifts the lamp.
fn arrange<S: Shelf<u8>, C: Chain<u8>>(
    rt: &HostRuntime,
    oven: &mut Panel<u8, S, C>,
) -> io::Result<()> {
    print_outcome(rt, "place surface 0 at (14, 4)", oven.place(0, 14, 4))?;
    print_outcome(rt, "place surface 1 at (2, 1)", oven.place(1, 2, 1))?;
    show_frame(rt, oven, VIEW)?;
    print_told(
        rt,
        "tell surface 1 to show 185",
        oven.tell(1, show_number(185)),
    )?;
    show_frame(rt, oven, VIEW)?;
    print_outcome(rt, "move surface 1 to (6, 2)", oven.move_to(1, 6, 2))?;
    show_frame(rt, oven, VIEW)?;
    print_outcome(rt, "lift surface 0 over 1 pane", oven.lift(0, 1))?;
    show_frame(rt, oven, VIEW)
}

// Refused calls, which alter nothing, and the rest.
fn refuse_and_clear<S: Shelf<u8>, C: Chain<u8>>(
    rt: &HostRuntime,
    oven: &mut Panel<u8, S, C>,
) -> io::Result<()> {
    print_outcome(rt, "place surface 1 again", oven.place(1, 0, 0))?;
    print_outcome(rt, "move surface 1 to (6, 5000)", oven.move_to(1, 6, 5000))?;
    print_told(
        rt,
        "tell surface 1 to show 12345",
        oven.tell(1, show_number(12345)),
    )?;
    show_frame(rt, oven, VIEW)?;
    print_outcome(rt, "remove surface 0", oven.remove(0))?;
    show_frame(rt, oven, VIEW)?;
    show_frame(rt, oven, VIEW)
}

// Opens a panel with base 1 and goes through its calls. This is no closure: one over a panel on a named chain gets no
// proof, and a function that is generic over the chain does.
fn use_panel<S: Shelf<u8> + Drop, C: Chain<u8> + Drop>(
    rt: &HostRuntime,
    shelf: S,
    chain: C,
) -> io::Result<()> {
    match Panel::open(shelf, chain, 1) {
        Ok(mut oven) => {
            arrange(rt, &mut oven)?;
            refuse_and_clear(rt, &mut oven)
        }
        Err(unopened) => print_outcome(rt, "open", Err(unopened.refusal)),
    }
}

// A lamp, surface 0, and a reading, surface 1, on a rotating chain of two buffers.
pub(crate) fn show_panel(rt: &HostRuntime) -> io::Result<()> {
    let lamp = [0u8, 3, 3, 3, 3, 0, 3, 2, 2, 2, 2, 3, 0, 3, 3, 3, 3, 0];
    let mut mem = [0u8; 384];
    println!(rt; "A panel of index pixels, 24 by 8, on two rotating buffers")?;
    println!(rt;
        "  the base (.), surface 0 a lamp (- and o), surface 1 a figure (#) on clear paper"
    )?;
    let shelf = Pair {
        first: Sheet::new(&lamp, 6, 3, 1),
        second: Figure::new(1, 7u8, 0),
    };
    use_panel(rt, shelf, Rotating::new(&mut mem, 24, 8, 2))
}
