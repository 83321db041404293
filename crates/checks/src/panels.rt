use crate::making::opened;
use chain::Chain;
use chains::{Picking, Rotating, Single};
use figure::{Figure, show_number};
use panel::Panel;
use pixel::Pixel;
use reference::Pane;
use sheet::{Sheet, turn_to};
use std::process::Abort;
use std::test::Fail;
use surface::{Order, Pair, Shelf};

// A lamp with clear corners, and another page that is solid.
const LAMP: [u8; 36] = *b"\0----\0-oooo-\0----\0==================";

fn shelf() -> Pair<Sheet<'static, u8>, Figure<u8>> {
    Pair {
        first: Sheet::new(&LAMP, 6, 3, 2),
        second: Figure::new(1, 7u8, 0),
    }
}

fn pane(surface: u32, x: i32, y: i32) -> Pane {
    Pane { surface, x, y }
}

// The pixel at (x, y) of a full repainting: the base 1, then each pane, bottom first.
fn repainted<S: Shelf<u8>>(shelf: &S, stack: &[Pane], x: i32, y: i32) -> u8 {
    let mut pixel = 1;
    for pane in stack {
        let right = x.wrapping_sub(pane.x);
        let down = y.wrapping_sub(pane.y);
        if let (Ok(right), Ok(down)) = (u32::try_from(right), u32::try_from(down)) {
            if let Some(above) = shelf.pixel(pane.surface, right, down) {
                pixel = above.over(pixel);
            }
        }
    }
    pixel
}

// Shows a frame: it is the full repainting of the stack, over a second shelf, the twin, that was told the same. Panel and
// twin go side by side: a struct of the two would be made for this test alone and say no more.
fn shows<S: Shelf<u8>, T: Shelf<u8>, C: Chain<u8>>(
    rt: &impl Abort,
    panel: &mut Panel<u8, S, C>,
    twin: &T,
    stack: &[Pane],
) {
    let shown = panel.show();
    assert!(rt; shown.touched <= 192);
    for y in 0..8 {
        for x in 0..24 {
            assert_eq!(rt; panel.front(x, y), Some(repainted(twin, stack, x, y)));
        }
    }
    assert_eq!(rt; panel.front(24, 0), None);
    assert_eq!(rt; panel.front(0, -1), None);
}

// Tells both shelves the same.
fn tells<S: Shelf<u8>, T: Shelf<u8>, C: Chain<u8>>(
    rt: &impl Abort,
    panel: &mut Panel<u8, S, C>,
    twin: &mut T,
    surface: u8,
    order: Order,
) {
    let told = panel.tell(i32::from(surface), order);
    let twin_told = twin.order(u32::from(surface), order);
    assert_eq!(rt; told.ok(), twin_told.ok());
}

fn arrange<S: Shelf<u8>, T: Shelf<u8>, C: Chain<u8>>(
    rt: &impl Abort,
    panel: &mut Panel<u8, S, C>,
    twin: &mut T,
) {
    assert_eq!(rt; panel.front(0, 0), None);
    assert_eq!(rt; panel.place(0, 14, 4), Ok(()));
    assert_eq!(rt; panel.place(1, 2, 1), Ok(()));
    shows(rt, panel, twin, &[pane(0, 14, 4), pane(1, 2, 1)]);
    tells(rt, panel, twin, 1, show_number(-42));
    shows(rt, panel, twin, &[pane(0, 14, 4), pane(1, 2, 1)]);
    assert_eq!(rt; panel.move_to(1, -3, 5), Ok(()));
    shows(rt, panel, twin, &[pane(0, 14, 4), pane(1, -3, 5)]);
    assert_eq!(rt; panel.move_to(1, 6, 2), Ok(()));
    shows(rt, panel, twin, &[pane(0, 14, 4), pane(1, 6, 2)]);
}

fn rearrange<S: Shelf<u8>, T: Shelf<u8>, C: Chain<u8>>(
    rt: &impl Abort,
    panel: &mut Panel<u8, S, C>,
    twin: &mut T,
) {
    assert_eq!(rt; panel.lift(0, 1), Ok(()));
    shows(rt, panel, twin, &[pane(1, 6, 2), pane(0, 14, 4)]);
    tells(rt, panel, twin, 0, turn_to(1));
    shows(rt, panel, twin, &[pane(1, 6, 2), pane(0, 14, 4)]);
    assert_eq!(rt; panel.remove(1), Ok(()));
    tells(rt, panel, twin, 1, show_number(777));
    shows(rt, panel, twin, &[pane(0, 14, 4)]);
    shows(rt, panel, twin, &[pane(0, 14, 4)]);
    assert_eq!(rt; panel.place(1, 10, 3), Ok(()));
    shows(rt, panel, twin, &[pane(0, 14, 4), pane(1, 10, 3)]);
}

// A session on any chain of 24 by 8.
fn session<C: Chain<u8> + Drop>(rt: &impl Abort, chain: C) -> Result<(), Fail> {
    let mut twin = shelf();
    let mut panel = opened(shelf(), chain)?;
    arrange(rt, &mut panel, &mut twin);
    rearrange(rt, &mut panel, &mut twin);
    Ok(())
}

#[test]
fn frames_on_a_single_chain(rt: HostRuntime) -> Result<(), Fail> {
    let mut mem = [9u8; 192];
    session(&rt, Single::new(&mut mem, 24, 8))
}

#[test]
fn frames_on_rotating_chains(rt: HostRuntime) -> Result<(), Fail> {
    let mut two = [9u8; 384];
    session(&rt, Rotating::new(&mut two, 24, 8, 2))?;
    let mut four = [9u8; 768];
    session(&rt, Rotating::new(&mut four, 24, 8, 4))
}

#[test]
fn frames_on_picking_chains(rt: HostRuntime) -> Result<(), Fail> {
    let mut two = [9u8; 384];
    session(&rt, Picking::new(&mut two, 24, 8, 2, 9))?;
    let mut three = [9u8; 576];
    session(&rt, Picking::new(&mut three, 24, 8, 3, 0x1a20_9b12))
}

// On one buffer a show repaints what is damaged: nothing, then the cells that changed, then the pane's two boxes.
fn counts<S: Shelf<u8>, C: Chain<u8>>(rt: &impl Abort, panel: &mut Panel<u8, S, C>) {
    assert_eq!(rt; panel.place(1, 2, 1), Ok(()));
    let first = panel.show();
    assert_eq!(rt; (first.age, first.touched, first.laid), (0, 192, 75));
    let idle = panel.show();
    assert_eq!(rt; (idle.age, idle.touched, idle.laid), (1, 0, 0));
    assert!(rt; panel.tell(1, show_number(5)).is_ok());
    let digit = panel.show();
    assert_eq!(rt; (digit.age, digit.touched, digit.laid), (1, 15, 15));
    assert_eq!(rt; panel.move_to(1, 3, 1), Ok(()));
    let moved = panel.show();
    assert_eq!(rt; (moved.age, moved.touched, moved.laid), (1, 80, 75));
}

fn count_on<C: Chain<u8> + Drop>(rt: &impl Abort, chain: C) -> Result<(), Fail> {
    counts(rt, &mut opened(shelf(), chain)?);
    Ok(())
}

#[test]
fn a_show_counts_its_work(rt: HostRuntime) -> Result<(), Fail> {
    let mut mem = [9u8; 192];
    count_on(&rt, Single::new(&mut mem, 24, 8))
}
