use crate::boxes::{print_box, print_region};
use region::{Display, Region, SignedRect};
use std::io;

// What one part of a panel damages in a frame.
#[derive(Clone, Copy)]
struct Damaged<'a> {
    part: &'a str,
    area: SignedRect,
}

fn damage(part: &str, left: i32, top: i32, right: i32, bottom: i32) -> Damaged<'_> {
    let area = SignedRect {
        left,
        top,
        right,
        bottom,
    };
    Damaged { part, area }
}

// A frame of an oven with four decks: their readings in two columns, a slider that is dragged, the last digit of a
// clock, and an alarm bar that slides in from the right.
fn frame() -> [Damaged<'static>; 12] {
    [
        damage("deck 1, two digits", 10, 2, 17, 7),
        damage("deck 2, all digits", 22, 2, 37, 7),
        damage("deck 3, last digit", 14, 10, 17, 15),
        damage("deck 4, all digits", 22, 10, 37, 15),
        damage("slider knob, old", 42, 20, 46, 25),
        damage("slider knob, new", 44, 20, 48, 25),
        damage("slider track, old", 42, 22, 44, 23),
        damage("slider track, new", 44, 22, 46, 23),
        damage("clock, last digit", 60, 1, 63, 6),
        damage("clock, colon", 54, 2, 55, 5),
        damage("alarm bar, old", 32, 28, 72, 32),
        damage("alarm bar, new", 24, 28, 64, 32),
    ]
}

// Joins the damage boxes of a frame on a display of 64 by 32.
pub(crate) fn show_damage(rt: &HostRuntime) -> io::Result<()> {
    println!(rt;
        "The damage of a frame on a display of 64 by 32: boxes (left,top,right,bottom), clipped and joined"
    )?;
    let Some(display) = Display::new(64, 32) else {
        return Ok(());
    };
    let mut all = Region::empty();
    for d in frame() {
        let part = d.part;
        print!(rt; "  {part:<19}")?;
        if let Some(b) = display.clip(d.area) {
            print_box(rt, b)?;
        }
        println!(rt)?;
        all = all.join(&display.region_of(d.area));
    }
    print_region(rt, "joined", &all)
}
