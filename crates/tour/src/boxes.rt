use region::{Rect, Region};
use std::io;

// Prints a box as (left,top,right,bottom); what the tour prints is its own, so no type of the library has it as Display.
pub(crate) fn print_box(rt: &HostRuntime, b: Rect) -> io::Result<()> {
    let Rect {
        left,
        top,
        right,
        bottom,
    } = b;
    print!(rt; " ({left},{top},{right},{bottom})")
}

// Prints the boxes of a region, and how many pixels it has.
pub(crate) fn print_region(rt: &HostRuntime, label: &str, region: &Region) -> io::Result<()> {
    let boxes = region.boxes();
    let count = boxes.len();
    let area = region.area();
    println!(rt; "  {label}: boxes {count}, pixels {area}")?;
    for row in boxes.chunks(8) {
        print!(rt; "   ")?;
        for b in row {
            print_box(rt, *b)?;
        }
        println!(rt)?;
    }
    Ok(())
}
