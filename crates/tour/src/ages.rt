use chains::{Picking, Rotating, Rule, Single, Turning, meet_ages};
use std::io;

pub(crate) fn print_ages(rt: &HostRuntime, label: &str, ages: &[u8]) -> io::Result<()> {
    print!(rt; "  {label:<27}")?;
    for age in ages {
        print!(rt; " {age}")?;
    }
    println!(rt)
}

// Prints the ages of the back that a dozen shows meet.
fn show_dozen<R: Rule>(
    rt: &HostRuntime,
    label: &str,
    chain: &mut Turning<'_, u8, R>,
) -> io::Result<()> {
    let mut ages = [0u8; 12];
    meet_ages(chain, &mut ages);
    print_ages(rt, label, &ages)
}

// Each kind of chain, of one pixel.
pub(crate) fn show_ages(rt: &HostRuntime) -> io::Result<()> {
    println!(rt;
        "The age of the back at each of a dozen shows (0: contents unknown, n: the frame of n shows ago)"
    )?;
    let mut one = [0u8];
    let mut two = [0u8; 2];
    let mut three = [0u8; 3];
    show_dozen(rt, "single", &mut Single::new(&mut one, 1, 1))?;
    show_dozen(
        rt,
        "rotating, 3 buffers",
        &mut Rotating::new(&mut three, 1, 1, 3),
    )?;
    show_dozen(
        rt,
        "picking, 2 buffers, by 9",
        &mut Picking::new(&mut two, 1, 1, 2, 9),
    )?;
    show_dozen(
        rt,
        "picking, 2 buffers, by 911",
        &mut Picking::new(&mut two, 1, 1, 2, 0x911),
    )
}
