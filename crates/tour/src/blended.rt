use crate::frames::{Ink, View, print_outcome, print_told, show_frame};
use chain::Chain;
use chains::Picking;
use figure::{Figure, show_number};
use panel::Panel;
use sheet::Sheet;
use std::io;
use surface::{Pair, Shelf};

const VIEW: View<'static, u32> = View {
    width: 17,
    height: 7,
    legend: &LEGEND,
};

const LEGEND: [Ink<u32>; 4] = [
    Ink {
        pixel: 0xff0000ff,
        letter: '.',
    },
    Ink {
        pixel: 0xffffffff,
        letter: '#',
    },
    Ink {
        pixel: 0xff80007f,
        letter: 'r',
    },
    Ink {
        pixel: 0xffff7f7f,
        letter: 'R',
    },
];

fn slide<S: Shelf<u32>, C: Chain<u32>>(
    rt: &HostRuntime,
    panel: &mut Panel<u32, S, C>,
) -> io::Result<()> {
    print_told(
        rt,
        "tell surface 0 to show 42",
        panel.tell(0, show_number(42)),
    )?;
    print_outcome(rt, "place surface 0 at (1, 1)", panel.place(0, 1, 1))?;
    print_outcome(rt, "place surface 1 at (-2, 2)", panel.place(1, -2, 2))?;
    show_frame(rt, panel, VIEW)?;
    print_outcome(rt, "move surface 1 to (4, 2)", panel.move_to(1, 4, 2))?;
    show_frame(rt, panel, VIEW)?;
    print_outcome(rt, "move surface 1 to (6, 2)", panel.move_to(1, 6, 2))?;
    show_frame(rt, panel, VIEW)?;
    print_outcome(rt, "move surface 1 to (8, 2)", panel.move_to(1, 8, 2))?;
    show_frame(rt, panel, VIEW)
}

// Opens a panel on blue and slides the bar; no closure, as in display.rt.
fn use_panel<S: Shelf<u32> + Drop, C: Chain<u32> + Drop>(
    rt: &HostRuntime,
    shelf: S,
    chain: C,
) -> io::Result<()> {
    match Panel::open(shelf, chain, 0xff0000ff) {
        Ok(mut panel) => slide(rt, &mut panel),
        Err(unopened) => print_outcome(rt, "open", Err(unopened.refusal)),
    }
}

// A half-clear bar, surface 1, that slides over a reading, surface 0, on two buffers that are picked by the digits of 9:
// the second show finds a buffer that was never shown and paints it whole.
pub(crate) fn show_blended(rt: &HostRuntime) -> io::Result<()> {
    let bar = [0x80800000u32; 16];
    let mut mem = [0u32; 238];
    println!(rt;
        "A panel of premultiplied pixels, 17 by 7, on two buffers picked by the digits of 9"
    )?;
    println!(rt;
        "  a blue base (.), surface 0 a white figure (#), surface 1 a half-clear red bar (r on blue, R on white)"
    )?;
    let shelf = Pair {
        first: Figure::new(1, 0xffffffffu32, 0),
        second: Sheet::new(&bar, 8, 2, 1),
    };
    use_panel(rt, shelf, Picking::new(&mut mem, 17, 7, 2, 9))
}
