ghost use Rattle.std.specs.Prelude.{◌≡◌};
ghost use Rattle.pixel.specs.Rounding.{near as nearest, Rounds, Unique, Exact};
ghost use Rattle.pixel.specs.Channel.{blended};

// n / 255, rounded to the nearest whole number.
pub fn near(n: u32) -> u32
    ensures named { result ≡ nearest n }
    ensures rounds { Rounds }
    ensures unique { Unique }
    ensures exact { Exact }
{
    // what is narrowed by `as` here and below is proved to fit, and leaves no error to answer
    ((u64::from(n) + 127) / 255) as u32
}

// One channel s, of a pixel with this alpha, laid over the channel d below it.
pub fn lay_channel(s: u8, d: u8, alpha: u8) -> u8
    ensures { result ≡ blended s d alpha }
{
    let kept = near(u32::from(d) * (255 - u32::from(alpha)));
    (u32::from(s) + kept).min(255) as u8
}
