ghost use Rattle.std.specs.Prelude.{◌≡◌};
ghost use Rattle.tour.specs.Table.{Worked, Ran};

use crate::ages::print_ages;
use crate::boxes::print_region;
use crate::joins::{crowded, lengthened, overlap, under};
use crate::met::{picking, rotating};
use crate::worked::Answers;
use pixel::{Pixel, near};
use std::io;

// Runs the table of worked examples. The definitions that the code's contracts name come out as the table has them,
// and so does the code.
pub fn worked_examples() -> Answers
    ensures worked { Worked }
    ensures ran { Ran result }
{
    let overlap = overlap();
    let lengthened = lengthened();
    Answers {
        near_127: near(127),
        near_128: near(128),
        near_largest: near(255 * 255),
        red_over_blue: 0x80400000u32.over(0xff0000ff),
        overlap,
        overlap_area: overlap.area(),
        under: under(),
        crowded: crowded(),
        lengthened,
        lengthened_area: lengthened.area(),
        rotating: rotating(),
        picking: picking(),
    }
}

// Prints the table, as the code answers it.
pub(crate) fn show_table(rt: &HostRuntime) -> io::Result<()> {
    let answers = worked_examples();
    let Answers {
        near_127,
        near_128,
        near_largest,
        red_over_blue,
        ..
    } = answers;
    println!(rt; "Worked examples")?;
    println!(rt;
        "  near(127) = {near_127}, near(128) = {near_128}, near(255 x 255) = {near_largest}"
    )?;
    println!(rt; "  80400000 over ff0000ff = {red_over_blue:08x}")?;
    print_region(rt, "(0,0,4,2) joined with (2,1,6,3)", &answers.overlap)?;
    print_region(rt, "(0,0,2,1) joined with (0,1,2,2)", &answers.under)?;
    print_region(
        rt,
        "32 single pixels joined with pixel 64",
        &answers.crowded,
    )?;
    print_region(
        rt,
        "32 single pixels joined with pixel 63",
        &answers.lengthened,
    )?;
    print_ages(rt, "rotating, 3 buffers", &answers.rotating)?;
    print_ages(rt, "picking, 2 buffers, by 9", &answers.picking)
}
