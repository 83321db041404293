ghost use Rattle.std.specs.Prelude.{◌≡◌, List, []};
ghost use Rattle.region_laws.specs.Joined.{union, stand_in, joined};
ghost use Rattle.region_laws.specs.Laws.{Unites, Joins, JoinLaws};
ghost use Rattle.region.specs.Lists.{list_of};

use crate::cover::covering;
use crate::pile::Full;
use crate::region::Region;

// What stands for the union of two regions where its list is too long for a region.
#[tactic(auto, using(crate::proofs::Joins::stood_in, crate::proofs::Joins::stands_left, crate::proofs::Joins::stands_above))]
fn stand_in(a: &Region, b: &Region) -> Region
    ensures { list_of result ≡ stand_in (union (list_of a.now) (list_of b.now)) }
{
    Region::single(covering(a.extents(), b.boxes()))
}

impl Region {
    // The union of two regions or, where its list has more than 32 boxes, the stand-in for it: the one smallest box
    // that covers it.
    #[tactic(auto, using(crate::proofs::Joins::joined_first, crate::proofs::Joins::joined_second))]
    pub fn join(&self, other: &Region) -> Region
        ensures list { list_of result ≡ joined (list_of self.now) (list_of other.now) }
        ensures joins { Joins (list_of self.now) (list_of other.now) (list_of result) }
        ensures unites { Unites (list_of self.now) (list_of other.now) }
        ensures laws { JoinLaws (list_of self.now) (list_of other.now) }
    {
        if self.count == 0 {
            return *other;
        }
        if other.count == 0 {
            return *self;
        }
        match self.bands().unite(&other.bands()) {
            Ok(p) => Region::made(p),
            Err(Full) => stand_in(self, other),
        }
    }
}
