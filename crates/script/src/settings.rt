ghost use Rattle.std.specs.Prelude.{◌≤◌};

// What a panel is opened with: sides of 1 to 64 pixels, the base pixel and a chain of 1 to 4 buffers.
#[derive(Clone, Copy, PartialEq, Eq, Debug)]
pub struct Settings {
    pub width: u32,
    pub height: u32,
    pub base: u8,
    pub buffers: u32,
    ghost wide: { (1 ≤ width) × (width ≤ 64) },
    ghost high: { (1 ≤ height) × (height ≤ 64) },
    ghost some: { (1 ≤ buffers) × (buffers ≤ 4) },
}
