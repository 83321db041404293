use crate::making::opened;
use chain::Chain;
use chains::Single;
use figure::{Figure, show_number};
use panel::Panel;
use reference::{Layer, Refusal};
use std::process::Abort;
use std::test::Fail;
use surface::{Pair, Shelf};

type Figures = Pair<Figure<u8>, Figure<u8>>;

// Surface 0 is open, surface 1 too, and surface 2 is closed.
fn shelf() -> Pair<Figures, Figure<u8>> {
    let first = Pair {
        first: Figure::new(1, 7u8, 0),
        second: Figure::new(1, 8, 2),
    };
    Pair {
        first,
        second: Figure::new(0, 7, 0),
    }
}

// A call is refused with this number, names this surface, and leaves nothing to repaint; so it is checked on one buffer
// after a show, where a change of the stack would be pending.
fn refuses<T, S: Shelf<u8>, C: Chain<u8>>(
    rt: &impl Abort,
    panel: &mut Panel<u8, S, C>,
    outcome: Result<T, Refusal>,
    number: u8,
    place: i32,
) -> Result<(), Fail>
where
    T: Drop,
{
    match outcome {
        Ok(_) => Err(Fail::new("not refused")),
        Err(refusal) => {
            assert_eq!(rt; refusal.number(), number);
            assert_eq!(rt; refusal.place(), place);
            let shelf = matches!(refusal.layer(), Layer::Shelf);
            assert_eq!(rt; shelf, number == 10);
            assert_eq!(rt; panel.show().touched, 0);
            Ok(())
        }
    }
}

// Surface 0 is on the stack, surface 1 is not.
fn refusals_of_place<S: Shelf<u8>, C: Chain<u8>>(
    rt: &impl Abort,
    panel: &mut Panel<u8, S, C>,
) -> Result<(), Fail> {
    let r = panel.place(-1, 0, 0);
    refuses(rt, panel, r, 4, -1)?;
    let r = panel.place(3, 9999, 0);
    refuses(rt, panel, r, 4, 3)?;
    let r = panel.place(2, 0, 0);
    refuses(rt, panel, r, 4, 2)?;
    let r = panel.place(0, 9999, 0);
    refuses(rt, panel, r, 5, 0)?;
    let r = panel.place(1, 2048, 0);
    refuses(rt, panel, r, 8, 1)?;
    let r = panel.place(1, 0, -2049);
    refuses(rt, panel, r, 8, 1)
}

fn refusals_of_others<S: Shelf<u8>, C: Chain<u8>>(
    rt: &impl Abort,
    panel: &mut Panel<u8, S, C>,
) -> Result<(), Fail> {
    let r = panel.move_to(1, 9999, 0);
    refuses(rt, panel, r, 6, 1)?;
    let r = panel.lift(1, 9);
    refuses(rt, panel, r, 6, 1)?;
    let r = panel.remove(1);
    refuses(rt, panel, r, 6, 1)?;
    let r = panel.move_to(0, -2049, 0);
    refuses(rt, panel, r, 8, 0)?;
    let r = panel.lift(0, 1);
    refuses(rt, panel, r, 9, 0)?;
    let r = panel.lift(0, -1);
    refuses(rt, panel, r, 9, 0)?;
    let r = panel.tell(0, show_number(10000));
    refuses(rt, panel, r, 10, 0)?;
    let r = panel.tell(2, show_number(1));
    refuses(rt, panel, r, 4, 2)
}

// The stack is as it was, and the outermost places are taken.
fn goes_on<S: Shelf<u8>, C: Chain<u8>>(rt: &impl Abort, panel: &mut Panel<u8, S, C>) {
    assert_eq!(rt; panel.front(12, 0), Some(7));
    assert_eq!(rt; panel.move_to(0, 2047, -2048), Ok(()));
    assert_eq!(rt; panel.show().touched, 75);
    assert_eq!(rt; panel.front(12, 0), Some(1));
    assert_eq!(rt; panel.place(1, -2048, 2047), Ok(()));
    assert_eq!(rt; panel.lift(1, 0), Ok(()));
    assert_eq!(rt; panel.show().touched, 0);
}

fn refusals_on<C: Chain<u8> + Drop>(rt: &impl Abort, chain: C) -> Result<(), Fail> {
    let mut panel = opened(shelf(), chain)?;
    assert_eq!(rt; panel.place(0, 0, 0), Ok(()));
    assert_eq!(rt; panel.show().laid, 75);
    refusals_of_place(rt, &mut panel)?;
    refusals_of_others(rt, &mut panel)?;
    goes_on(rt, &mut panel);
    Ok(())
}

#[test]
fn refused_calls_alter_nothing(rt: HostRuntime) -> Result<(), Fail> {
    let mut mem = [9u8; 128];
    refusals_on(&rt, Single::new(&mut mem, 16, 8))
}

fn open_on<C: Chain<u8> + Drop>(rt: &impl Abort, chain: C) -> Result<(), Fail> {
    match Panel::open(shelf(), chain, 1) {
        Ok(_) => Err(Fail::new("opened")),
        Err(unopened) => {
            assert_eq!(rt; unopened.refusal.number(), 3);
            assert_eq!(rt; unopened.refusal.place(), 0);
            assert_eq!(rt; unopened.shelf.count(), 3);
            assert_eq!(rt; unopened.shelf.pixel(0, 12, 0), Some(7));
            Ok(())
        }
    }
}

#[test]
fn a_chain_with_no_display_is_handed_back(rt: HostRuntime) -> Result<(), Fail> {
    let mut mem = [9u8; 127];
    open_on(&rt, Single::new(&mut mem, 16, 8))
}

type Four = Pair<Figures, Figures>;

type Eight = Pair<Four, Four>;

fn four() -> Four {
    let first = Pair {
        first: Figure::new(1, 7u8, 0),
        second: Figure::new(1, 7, 0),
    };
    let second = Pair {
        first: Figure::new(1, 7u8, 0),
        second: Figure::new(1, 7, 0),
    };
    Pair { first, second }
}

fn eight() -> Eight {
    Pair {
        first: four(),
        second: four(),
    }
}

// Sixteen panes fill a stack; the seventeenth is refused.
fn fill<S: Shelf<u8>, C: Chain<u8>>(
    rt: &impl Abort,
    panel: &mut Panel<u8, S, C>,
) -> Result<(), Fail> {
    for k in 0..16 {
        assert_eq!(rt; panel.place(k, 0, 0), Ok(()));
    }
    assert_eq!(rt; panel.show().laid, 1200);
    let r = panel.place(16, 9999, 0);
    refuses(rt, panel, r, 7, 16)?;
    assert_eq!(rt; panel.remove(3), Ok(()));
    assert_eq!(rt; panel.place(16, 0, 0), Ok(()));
    assert_eq!(rt; panel.show().laid, 1200);
    Ok(())
}

fn fill_on<C: Chain<u8> + Drop>(rt: &impl Abort, chain: C) -> Result<(), Fail> {
    let sixteen = Pair {
        first: eight(),
        second: eight(),
    };
    let shelf = Pair {
        first: sixteen,
        second: Figure::new(1, 7u8, 0),
    };
    fill(rt, &mut opened(shelf, chain)?)
}

#[test]
fn a_stack_holds_sixteen_panes(rt: HostRuntime) -> Result<(), Fail> {
    let mut mem = [9u8; 128];
    fill_on(&rt, Single::new(&mut mem, 16, 8))
}
