use chain::Chain;
use chains::{Picking, Rotating, Single, meet_ages};
use std::process::Abort;

#[test]
fn single_meets_its_own_frame(rt: HostRuntime) {
    let mut mem = [0u8];
    let mut ages = [9u8; 4];
    meet_ages(&mut Single::new(&mut mem, 1, 1), &mut ages);
    assert_eq!(rt; ages, [0, 1, 1, 1]);
}

#[test]
fn rotating_settles_at_its_count(rt: HostRuntime) {
    let mut mem = [0u8; 3];
    let mut ages = [9u8; 5];
    meet_ages(&mut Rotating::new(&mut mem, 1, 1, 3), &mut ages);
    assert_eq!(rt; ages, [0, 0, 0, 3, 3]);
}

#[test]
fn picking_goes_by_digits(rt: HostRuntime) {
    let mut mem = [0u8; 2];
    let mut ages = [9u8; 4];
    meet_ages(&mut Picking::new(&mut mem, 1, 1, 2, 9), &mut ages);
    assert_eq!(rt; ages, [0, 0, 2, 1]);
}

// A pixel of the back is seen after the swap, and not before; off the display nothing is written.
fn write_and_show<C: Chain<u8>>(rt: &impl Abort, chain: &mut C) {
    assert_eq!(rt; chain.front_pixel(1, 0), None);
    assert!(rt; chain.write(1, 0, 5));
    assert!(rt; !chain.write(2, 0, 6));
    assert!(rt; !chain.write(0, 1, 6));
    assert_eq!(rt; chain.back_pixel(1, 0), Some(5));
    assert_eq!(rt; chain.back_pixel(0, 0), Some(9));
    chain.swap();
    assert_eq!(rt; chain.front_pixel(1, 0), Some(5));
    assert_eq!(rt; chain.front_pixel(0, 0), Some(9));
    assert_eq!(rt; chain.front_pixel(2, 0), None);
}

#[test]
fn a_write_is_seen_after_the_swap(rt: HostRuntime) {
    let mut one = [9u8; 2];
    write_and_show(&rt, &mut Single::new(&mut one, 2, 1));
    let mut two = [9u8; 4];
    write_and_show(&rt, &mut Rotating::new(&mut two, 2, 1, 2));
    let mut three = [9u8; 6];
    write_and_show(&rt, &mut Picking::new(&mut three, 2, 1, 3, 0x95));
}

#[test]
fn memory_of_another_length_gives_no_display(rt: HostRuntime) {
    let mut mem = [9u8; 5];
    let mut chain = Rotating::new(&mut mem, 2, 1, 2);
    assert_eq!(rt; chain.width(), 0);
    assert_eq!(rt; chain.height(), 0);
    assert!(rt; !chain.write(0, 0, 1));
    chain.swap();
    assert_eq!(rt; chain.age(), 1);
}
