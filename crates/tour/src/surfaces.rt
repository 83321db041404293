use crate::boxes::print_box;
use figure::{Figure, show_number};
use pixel::Pixel;
use sheet::{Sheet, turn_to};
use std::io;
use surface::{Order, Shelf, Size};

// Draws the only surface of a shelf: '#' for a solid pixel, '.' for a clear one, '+' for one between.
fn draw<P: Pixel, S: Shelf<P>>(rt: &HostRuntime, shelf: &S, clear: P) -> io::Result<()> {
    let Some(Size { width, height }) = shelf.size(0) else {
        return Ok(());
    };
    for y in 0..height {
        print!(rt; "    ")?;
        for x in 0..width {
            let letter = match shelf.pixel(0, x, y) {
                Some(p) if p.is_solid() => '#',
                Some(p) if !p.same(clear) => '+',
                _ => '.',
            };
            print!(rt; "{letter}")?;
        }
        println!(rt)?;
    }
    Ok(())
}

// Passes an order to the only surface of a shelf, and draws what it then shows.
fn tell<P: Pixel, S: Shelf<P>>(
    rt: &HostRuntime,
    shelf: &mut S,
    clear: P,
    order: Order,
) -> io::Result<()> {
    let Order { act, a, b } = order;
    print!(rt; "  order ({act}, {a}, {b}):")?;
    match shelf.order(0, order) {
        Ok(box_) => {
            print!(rt; " taken, damage")?;
            print_box(rt, box_)?;
        }
        Err(_) => print!(rt; " refused")?,
    }
    println!(rt)?;
    draw(rt, shelf, clear)
}

// A figure of index pixels, from 0 to -42, 9999 and back to 0.
pub(crate) fn show_figure(rt: &HostRuntime) -> io::Result<()> {
    println!(rt; "A figure at scale 1 in index pixels, its damage in whole cells of 3 by 5")?;
    let mut figure = Figure::new(1, 7u8, 0);
    draw(rt, &figure, 0u8)?;
    tell(rt, &mut figure, 0u8, show_number(-42))?;
    tell(rt, &mut figure, 0u8, show_number(9999))?;
    tell(rt, &mut figure, 0u8, show_number(0))?;
    tell(rt, &mut figure, 0u8, show_number(10000))
}

// A sheet of two pages in premultiplied pixels: a lamp that is dark, and lit with a half-clear halo.
pub(crate) fn show_sheet(rt: &HostRuntime) -> io::Result<()> {
    let lit = 0xffff8000u32;
    let halo = 0x80804000;
    let rim = 0xff404040;
    let cells = [
        rim, rim, rim, rim, rim, rim, rim, rim, 0, 0, 0, 0, 0, 0, 0, rim, 0, 0, 0, 0, 0, 0, 0, rim,
        rim, rim, rim, rim, rim, rim, rim, rim, 0, halo, lit, lit, halo, 0, 0, rim, 0, 0, halo,
        halo, 0, 0, 0, rim,
    ];
    println!(rt;
        "A sheet of two pages in premultiplied pixels, its damage the places where the pages differ"
    )?;
    let mut sheet = Sheet::new(&cells, 8, 3, 2);
    draw(rt, &sheet, 0u32)?;
    tell(rt, &mut sheet, 0u32, turn_to(1))?;
    tell(rt, &mut sheet, 0u32, turn_to(2))
}
