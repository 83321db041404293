ghost use Rattle.std.specs.Prelude.{◌≡◌};
ghost use Rattle.region_laws.specs.Joined.{widen as widen_box, cover_from};

use region_laws::Rect;

// The smallest box over `c`, unless that covers nothing, and `b`.
pub(crate) fn widen(c: Rect, b: Rect) -> Rect
    ensures { result ≡ widen_box c b }
{
    if !c.is_full() {
        return b;
    }
    Rect {
        left: c.left.min(b.left),
        top: c.top.min(b.top),
        right: c.right.max(b.right),
        bottom: c.bottom.max(b.bottom),
    }
}

// The smallest box over `c` and a list.
pub(crate) fn covering(c: Rect, bs: &[Rect]) -> Rect
    ensures { result ≡ cover_from c bs.now }
{
    bs.iter().fold(c, |all, b| widen(all, *b))
}
