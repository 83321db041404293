use crate::making::rect;
use figure::{Figure, show_number};
use sheet::{Sheet, turn_to};
use std::process::Abort;
use surface::{Order, OrderRefused, Pair, Shelf, Size};

// A row of a surface is as drawn: '#' for pixel 7, else pixel 1.
fn drawn<S: Shelf<u8>>(rt: &impl Abort, shelf: &S, k: u32, y: u32, letters: &[u8]) {
    let width = u32::try_from(letters.len()).unwrap_or(u32::MAX);
    for (x, letter) in (0..width).zip(letters) {
        let pixel = if *letter == b'#' { 7u8 } else { 1 };
        assert_eq!(rt; shelf.pixel(k, x, y), Some(pixel));
    }
    assert_eq!(rt; shelf.pixel(k, width, y), None);
}

#[test]
fn a_figure_draws_its_number(rt: HostRuntime) {
    let mut f = Figure::new(1, 7u8, 1);
    drawn(&rt, &f, 0, 0, b"............###");
    assert_eq!(rt; f.order(0, show_number(-42)), Ok(rect(4, 0, 15, 5)));
    drawn(&rt, &f, 0, 0, b"........#.#.###");
    drawn(&rt, &f, 0, 1, b"........#.#...#");
    drawn(&rt, &f, 0, 2, b"....###.###.###");
    drawn(&rt, &f, 0, 3, b"..........#.#..");
    drawn(&rt, &f, 0, 4, b"..........#.###");
    assert_eq!(rt; f.order(0, show_number(-43)), Ok(rect(12, 0, 15, 5)));
    assert_eq!(rt; f.order(0, show_number(9999)), Ok(rect(0, 0, 15, 5)));
    drawn(&rt, &f, 0, 2, b"###.###.###.###");
    assert_eq!(rt; f.order(0, show_number(9999)), Ok(rect(0, 0, 0, 0)));
    assert_eq!(rt; f.pixel(0, 0, 5), None);
}

#[test]
fn a_figure_refuses(rt: HostRuntime) {
    let mut f = Figure::new(1, 7u8, 1);
    for o in [
        show_number(10000),
        show_number(-1000),
        turn_to(1),
        Order { act: 3, a: 1, b: 1 },
    ] {
        assert_eq!(rt; f.order(0, o), Err(OrderRefused));
    }
    assert_eq!(rt; f.order(1, show_number(5)), Err(OrderRefused));
    drawn(&rt, &f, 0, 0, b"............###");
    let mut closed = Figure::new(9, 7u8, 1);
    assert_eq!(rt;
        closed.size(0),
        Some(Size {
            width: 0,
            height: 0
        })
    );
    assert_eq!(rt; closed.order(0, show_number(5)), Err(OrderRefused));
}

#[test]
fn a_sheet_turns_its_pages(rt: HostRuntime) {
    let cells = [7u8, 7, 1, 7, 1, 1, 7, 1];
    let mut s = Sheet::new(&cells, 4, 1, 2);
    drawn(&rt, &s, 0, 0, b"##.#");
    assert_eq!(rt; s.solid(0), Some(rect(0, 0, 4, 1)));
    assert_eq!(rt; s.order(0, turn_to(1)), Ok(rect(0, 0, 4, 1)));
    drawn(&rt, &s, 0, 0, b"..#.");
    assert_eq!(rt; s.order(0, turn_to(1)), Ok(rect(0, 0, 0, 0)));
    for o in [turn_to(2), turn_to(-1), show_number(0)] {
        assert_eq!(rt; s.order(0, o), Err(OrderRefused));
    }
    drawn(&rt, &s, 0, 0, b"..#.");
    let closed = Sheet::new(&cells, 3, 1, 2);
    assert_eq!(rt;
        closed.size(0),
        Some(Size {
            width: 0,
            height: 0
        })
    );
    assert_eq!(rt; closed.pixel(0, 0, 0), None);
}

#[test]
fn a_pair_numbers_its_parts(rt: HostRuntime) {
    let cells = [7u8, 7, 1, 7];
    let mut p = Pair {
        first: Sheet::new(&cells, 4, 1, 1),
        second: Figure::new(1, 7u8, 1),
    };
    assert_eq!(rt; p.count(), 2);
    drawn(&rt, &p, 0, 0, b"##.#");
    drawn(&rt, &p, 1, 0, b"............###");
    assert_eq!(rt; p.order(0, show_number(8)), Err(OrderRefused));
    assert_eq!(rt; p.order(1, show_number(8)), Ok(rect(12, 0, 15, 5)));
    assert_eq!(rt; p.order(2, show_number(8)), Err(OrderRefused));
    drawn(&rt, &p, 1, 2, b"............###");
    assert_eq!(rt; p.size(2), None);
}
