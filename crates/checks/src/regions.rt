use crate::making::{display, rect, signed};
use region::{Display, Rect, Region};
use std::process::Abort;
use std::test::Fail;

// A region has these boxes, and this many pixels.
fn has(rt: &impl Abort, region: &Region, boxes: &[Rect], area: u32) {
    assert_eq!(rt; region.boxes(), boxes);
    assert_eq!(rt; region.area(), area);
}

#[test]
fn overlapping_boxes_make_bands(rt: HostRuntime) -> Result<(), Fail> {
    let d = display(64, 32)?;
    let both = d
        .region_of(signed(0, 0, 4, 2))
        .join(&d.region_of(signed(2, 1, 6, 3)));
    has(
        &rt,
        &both,
        &[rect(0, 0, 4, 1), rect(0, 1, 6, 2), rect(2, 2, 6, 3)],
        14,
    );
    assert!(rt; both.covers(5, 2));
    assert!(rt; !both.covers(5, 0));
    assert_eq!(rt; both.extents(), rect(0, 0, 6, 3));
    assert!(rt; both.same(&both.join(&both)));
    assert!(rt; !both.same(&d.whole()));
    Ok(())
}

#[test]
fn boxes_of_one_width_join_into_one(rt: HostRuntime) -> Result<(), Fail> {
    let d = display(64, 32)?;
    let both = d
        .region_of(signed(0, 0, 2, 1))
        .join(&d.region_of(signed(0, 1, 2, 2)));
    has(&rt, &both, &[rect(0, 0, 2, 2)], 4);
    Ok(())
}

#[test]
fn a_crowded_row_becomes_one_box(rt: HostRuntime) -> Result<(), Fail> {
    let d = display(72, 1)?;
    let mut row = Region::empty();
    for x in 0..32u8 {
        let left = i32::from(2 * x);
        let right = i32::from(2 * x + 1);
        row = row.join(&d.region_of(signed(left, 0, right, 1)));
    }
    assert_eq!(rt; row.boxes().len(), 32);
    has(
        &rt,
        &row.join(&d.region_of(signed(64, 0, 65, 1))),
        &[rect(0, 0, 65, 1)],
        65,
    );
    let longer = row.join(&d.region_of(signed(63, 0, 64, 1)));
    assert_eq!(rt; longer.boxes().len(), 32);
    assert_eq!(rt; longer.area(), 33);
    Ok(())
}

#[test]
fn boxes_are_clipped(rt: HostRuntime) -> Result<(), Fail> {
    let d = display(64, 32)?;
    let all = signed(i32::MIN, i32::MIN, i32::MAX, i32::MAX);
    assert_eq!(rt; d.clip(all), Some(rect(0, 0, 64, 32)));
    assert_eq!(rt; d.clip(signed(60, -3, 90, 1)), Some(rect(60, 0, 64, 1)));
    assert_eq!(rt; d.clip(signed(64, 0, 90, 1)), None);
    assert_eq!(rt; d.clip(signed(-9, 0, 0, 1)), None);
    assert_eq!(rt; d.clip(signed(5, 5, 5, 9)), None);
    assert!(rt; d.region_of(all).same(&d.whole()));
    assert!(rt; Display::new(0, 1).is_none());
    assert!(rt; Display::new(1, 1025).is_none());
    assert!(rt; Display::new(1024, 1).is_some());
    Ok(())
}
