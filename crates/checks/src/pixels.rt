use pixel::{Pixel, is_premultiplied, near};

#[test]
fn near_rounds_to_the_nearest(rt: HostRuntime) {
    assert_eq!(rt; near(127), 0);
    assert_eq!(rt; near(128), 1);
    assert_eq!(rt; near(255 * 255), 255);
    assert_eq!(rt; near(u32::MAX), 16843009);
}

#[test]
fn dark_red_over_blue(rt: HostRuntime) {
    assert_eq!(rt; 0x80400000u32.over(0xff0000ff), 0xff40007f);
}

#[test]
fn channels_above_alpha_are_held(rt: HostRuntime) {
    assert_eq!(rt; 0x00ff8001u32.over(0xffffffff), 0xffffffff);
    assert!(rt; !is_premultiplied(0x00ff8001));
    assert!(rt; is_premultiplied(0x80400000));
}

#[test]
fn solid_pixels_hide(rt: HostRuntime) {
    for below in [0u32, 0x01010101, 0x80400000, 0xff0000ff, u32::MAX] {
        assert_eq!(rt; 0xff123456u32.over(below), 0xff123456);
        assert_eq!(rt; 0u32.over(below), below);
    }
    assert!(rt; 0xff123456u32.is_solid());
    assert!(rt; !0xfeffffffu32.is_solid());
}

#[test]
fn index_zero_is_clear(rt: HostRuntime) {
    for below in 0..=255u8 {
        assert_eq!(rt; 0u8.over(below), below);
        assert_eq!(rt; 7u8.over(below), 7);
    }
    assert!(rt; !0u8.is_solid());
    assert!(rt; 1u8.is_solid());
    assert!(rt; 255u8.is_solid());
}

#[test]
fn only_equal_pixels_are_the_same(rt: HostRuntime) {
    assert!(rt; 7u8.same(7));
    assert!(rt; !7u8.same(8));
    assert!(rt; 0xff123456u32.same(0xff123456));
    assert!(rt; !0xff123456u32.same(0xfe123456));
}
