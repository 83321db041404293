use crate::boxes::print_box;
use chain::Chain;
use panel::Panel;
use pixel::Pixel;
use reference::{Layer, Refusal, Shown};
use region::Rect;
use std::io;
use surface::Shelf;

// How a pixel is printed.
#[derive(Clone, Copy)]
pub(crate) struct Ink<P> {
    pub(crate) pixel: P,
    pub(crate) letter: char,
}

// How a display is printed: its size, and the letters of its pixels.
#[derive(Clone, Copy)]
pub(crate) struct View<'a, P> {
    pub(crate) width: i32,
    pub(crate) height: i32,
    pub(crate) legend: &'a [Ink<P>],
}

// The letter of a pixel; '?' for one that is not in the legend.
fn letter<P: Pixel>(legend: &[Ink<P>], pixel: P) -> char {
    legend
        .iter()
        .find(|ink| pixel.same(ink.pixel))
        .map_or('?', |ink| ink.letter)
}

// Prints the frame that is seen, pixel by pixel.
fn print_front<P: Pixel, S: Shelf<P>, C: Chain<P>>(
    rt: &HostRuntime,
    panel: &mut Panel<P, S, C>,
    view: View<'_, P>,
) -> io::Result<()> {
    for y in 0..view.height {
        print!(rt; "    ")?;
        for x in 0..view.width {
            let letter = panel.front(x, y).map_or(' ', |p| letter(view.legend, p));
            print!(rt; "{letter}")?;
        }
        println!(rt)?;
    }
    Ok(())
}

// Shows a frame and prints it, with the age of the buffer that it was painted into, the pixels that were written and
// the panes that were laid for them.
pub(crate) fn show_frame<P: Pixel, S: Shelf<P>, C: Chain<P>>(
    rt: &HostRuntime,
    panel: &mut Panel<P, S, C>,
    view: View<'_, P>,
) -> io::Result<()> {
    let Shown { age, touched, laid } = panel.show();
    println!(rt; "  show: age {age}, touched {touched}, laid {laid}")?;
    print_front(rt, panel, view)
}

// Prints what a call came to.
pub(crate) fn print_outcome(
    rt: &HostRuntime,
    call: &str,
    outcome: Result<(), Refusal>,
) -> io::Result<()> {
    match outcome {
        Ok(()) => println!(rt; "  {call}"),
        Err(refusal) => {
            let number = refusal.number();
            let place = refusal.place();
            let layer = match refusal.layer() {
                Layer::Panel => "panel",
                Layer::Shelf => "shelf",
            };
            println!(rt; "  {call}: refused, number {number}, layer {layer}, place {place}")
        }
    }
}

// Prints what a tell came to.
pub(crate) fn print_told(
    rt: &HostRuntime,
    call: &str,
    told: Result<Rect, Refusal>,
) -> io::Result<()> {
    match told {
        Ok(damage) => {
            print!(rt; "  {call}: damage")?;
            print_box(rt, damage)?;
            println!(rt)
        }
        Err(refusal) => print_outcome(rt, call, Err(refusal)),
    }
}
