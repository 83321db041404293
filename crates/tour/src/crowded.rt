use crate::boxes::print_region;
use crate::joins::{crowded, dots, lengthened};
use std::io;

// A row of as many boxes as a region holds, and one pixel more: apart from them all, and touching the last.
pub(crate) fn show_crowded(rt: &HostRuntime) -> io::Result<()> {
    println!(rt;
        "A crowded row: a region holds at most 32 boxes, and one box over it stands for a longer list"
    )?;
    print_region(rt, "every second pixel of 64", &dots())?;
    print_region(rt, "joined with pixel 64", &crowded())?;
    print_region(rt, "joined with pixel 63", &lengthened())
}
