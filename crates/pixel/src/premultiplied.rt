ghost use Rattle.std.specs.Prelude.{◌≡◌, true, nat_eq};
ghost use Rattle.pixel.specs.Premultiplied.{alpha, red, green, blue, laid, hidden, premultiplied, unclamped};
ghost use Rattle.std.proofs.Common.{rules};

use crate::channel::lay_channel;
use crate::pixel::Pixel;

// The channels of a premultiplied pixel.
#[derive(Clone, Copy)]
struct Channels {
    a: u8,
    r: u8,
    g: u8,
    b: u8,
}

// Takes a pixel apart.
impl From<u32> for Channels {
    ghost from_gives = { λ p c. (c.a ≡ alpha p) × (c.r ≡ red p) × (c.g ≡ green p) × (c.b ≡ blue p) };

    fn from(p: u32) -> Channels {
        let [a, r, g, b] = p.to_be_bytes();
        Channels { a, r, g, b }
    }
}

// Lays a pixel over another, channel by channel.
fn lay_pixel(s: u32, d: u32) -> u32
    ensures { result ≡ laid s d }
{
    let s = Channels::from(s);
    let d = Channels::from(d);
    u32::from_be_bytes([
        lay_channel(s.a, d.a, s.a),
        lay_channel(s.r, d.r, s.a),
        lay_channel(s.g, d.g, s.a),
        lay_channel(s.b, d.b, s.a),
    ])
}

// The premultiplied kind: a 32-bit number, from the top byte down alpha, red, green and blue, each colour already
// multiplied by alpha / 255.
impl Pixel for u32 {
    ghost lay = { laid };

    ghost solid = { hidden };

    ghost equal = { nat_eq };

    ghost hides = { Prim.search rules };

    ghost alike = { Prim.search rules };

    ghost itself = { Prim.search rules };

    #[tactic(auto, using(crate::proofs::Packing::laid_stays))]
    fn over(self, below: u32) -> u32
        ensures lays { result ≡ laid self below }
        ensures stays { premultiplied self ≡ true → premultiplied below ≡ true → premultiplied result ≡ true }
        ensures unclamped { premultiplied self ≡ true → premultiplied below ≡ true → unclamped self below ≡ true }
        ensures clear { self ≡ 0 → result ≡ below }
    {
        lay_pixel(self, below)
    }

    fn is_solid(self) -> bool {
        self >> 24 == 255
    }

    fn same(self, other: u32) -> bool {
        self == other
    }
}

// Whether no colour of the pixel is above its alpha.
pub fn is_premultiplied(p: u32) -> bool
    ensures { result ≡ premultiplied p }
{
    let c = Channels::from(p);
    c.r <= c.a && c.g <= c.a && c.b <= c.a
}
