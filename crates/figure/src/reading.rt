ghost use Rattle.std.specs.Prelude.{pos, negsuc, ◌≤ℤ◌};

// A number that four characters can show: -999 to 9,999.
#[derive(Clone, Copy)]
pub struct Reading {
    pub value: i32,
    ghost low: { negsuc 998 ≤ℤ value },
    ghost high: { value ≤ℤ pos 9999 },
}
