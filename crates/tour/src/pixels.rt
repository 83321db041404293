ghost use Rattle.std.specs.Prelude.{◌≡◌};
ghost use Rattle.tour.specs.Rows.{laid_row};

use pixel::Pixel;
use std::{fmt, io};

// Lays a row of pixels over another, as far as both go.
pub fn lay_row<P: Pixel>(row: &mut [P], above: &[P])
    ensures { row.new ≡ laid_row P.Pixel.lay above.now row.old }
{
    // by index: a proof learns nothing of what is written to pixels that a zip lends out
    for i in 0..row.len().min(above.len()) {
        row[i] = above[i].over(row[i]);
    }
}

// Prints a row of pixels behind a label, in hexadecimal digits, so many for each pixel.
fn print_row<T: fmt::Radix + Copy>(
    rt: &HostRuntime,
    label: &str,
    digits: usize,
    row: &[T],
) -> io::Result<()> {
    print!(rt; "  {label:<7}")?;
    for p in row {
        print!(rt; " {p:0digits$x}")?;
    }
    println!(rt)
}

// A warning bar, half clear, fading out at its end, over a blue, a green and a white stretch.
pub(crate) fn show_premultiplied(rt: &HostRuntime) -> io::Result<()> {
    let bar = [
        0u32, 0x80800000, 0x80800000, 0x80800000, 0x80800000, 0x80800000, 0x40400000, 0x20200000,
    ];
    let mut row = [
        0xff0000ffu32,
        0xff0000ff,
        0xff0000ff,
        0xff00c000,
        0xff00c000,
        0xffffffff,
        0xffffffff,
        0xffffffff,
    ];
    println!(rt;
        "A half-clear warning bar over a row of premultiplied pixels (alpha, red, green, blue)"
    )?;
    print_row(rt, "below", 8, &row)?;
    print_row(rt, "above", 8, &bar)?;
    lay_row(&mut row, &bar);
    print_row(rt, "result", 8, &row)
}

// The second row of a digit 4, ink 7, over a striped background.
pub(crate) fn show_index(rt: &HostRuntime) -> io::Result<()> {
    let digit = [0u8, 7, 0, 7, 0, 0];
    let mut row = [1u8, 2, 1, 2, 1, 2];
    println!(rt;
        "The second row of a digit 4 over a striped background, index pixels (0 is clear)"
    )?;
    print_row(rt, "below", 2, &row)?;
    print_row(rt, "above", 2, &digit)?;
    lay_row(&mut row, &digit);
    print_row(rt, "result", 2, &row)
}
