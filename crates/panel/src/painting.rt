ghost use Rattle.std.specs.Prelude.{◌≡◌, ◌+◌, ◌≤◌, drop};
ghost use Rattle.region_laws.specs.Boxes.{box, inside};
ghost use Rattle.region.specs.Lists.{list_of};
ghost use Rattle.reference.specs.Picture.{laid_over};
ghost use Rattle.reference.specs.Painting.{Painted, one_per_place, row_box};
ghost use Rattle.panel.specs.Sights.{sights_of, sight_pixel, over as over_from, composed, stacked};
ghost use Rattle.panel.specs.Paints.{ChainOnly, PaintedBox, PaintedList};

use crate::panel::Panel;
use crate::sight::{Composed, Descent, Sight, Sights, Tally};
use chain::Chain;
use pixel::Pixel;
use region::{Rect, Region};
use surface::Shelf;

impl<P: Pixel, S: Shelf<P>, C: Chain<P>> Panel<P, S, C> {
    // Lays a pane's pixel at (x, y), if it covers that place, over d.
    fn lay_one(&self, sight: &Sight, d: P, x: u32, y: u32) -> P
        ensures { result ≡ laid_over P.Pixel.lay d (sight_pixel (S.Shelf.tells P.Pixel.solid self.now.shelf) x y sight.now) }
    {
        let Some(at) = sight.spot(x, y) else {
            return d;
        };
        match self.shelf.pixel(sight.pane.surface, at.x, at.y) {
            Some(p) => p.over(d),
            None => d,
        }
    }

    // Lays the panes from height `from` up over the base at (x, y).
    fn lay_up(&self, sights: &Sights, from: usize, x: u32, y: u32) -> P
        ensures { result ≡ over_from P.Pixel.lay (S.Shelf.tells P.Pixel.solid self.now.shelf) x y self.now.base (drop from (sights_of sights.now)) }
    {
        let upper = sights.all.as_slice().get(from..).unwrap_or(&[]);
        upper
            .iter()
            .fold(self.base, |d, sight| self.lay_one(sight, d, x, y))
    }

    // The pixel of the whole picture at (x, y), from the first pane whose solid box covers it, and the panes laid.
    fn compose(&self, sights: &Sights, x: u32, y: u32) -> Composed<P>
        ensures pixel { result.pixel ≡ composed P.Pixel.lay (S.Shelf.tells P.Pixel.solid self.now.shelf) self.now.base (sights_of sights.now) x y }
        ensures laid { result.laid ≡ stacked (sights_of sights.now) x y }
        ensures few { result.laid ≤ 16 }
    {
        let Descent { from, laid } = sights.descend(x, y);
        let pixel = self.lay_up(sights, from, x, y);
        Composed { pixel, laid }
    }

    // Paints one pixel, and answers how many panes were laid for it.
    fn paint_pixel(&mut self, sights: &Sights, x: u32, y: u32) -> u32
        ensures painted { Painted (C.Chain.tells self.old.chain) (inside (box x y (x + 1) (y + 1))) (one_per_place (C.Chain.tells self.old.chain) x y) (composed P.Pixel.lay (S.Shelf.tells P.Pixel.solid self.old.shelf) self.old.base (sights_of sights.now)) (C.Chain.tells self.new.chain) }
        ensures laid { result ≡ stacked (sights_of sights.now) x y }
        ensures few { result ≤ 16 }
        ensures rest { ChainOnly self.old self.new }
    {
        let Composed { pixel, laid } = self.compose(sights, x, y);
        self.chain.write(x, y, pixel);
        laid
    }

    // Paints the pixels of row y from `left` up to and without `right`. Row, box and region each have a loop of their own
    // and tally their parts, so that each promises what it paints.
    fn paint_row(&mut self, sights: &Sights, left: u32, right: u32, y: u32) -> Tally
        ensures { PaintedBox P.Pixel.lay (S.Shelf.tells P.Pixel.solid) C.Chain.tells self.old sights.now (row_box left right y) result self.new }
    {
        let mut tally = Tally::NONE;
        for x in left..right {
            let laid = self.paint_pixel(sights, x, y);
            tally.add(Tally { touched: 1, laid });
        }
        tally
    }

    // Paints a box, its rows from the top, each from the left.
    fn paint_box(&mut self, sights: &Sights, b: Rect) -> Tally
        ensures { PaintedBox P.Pixel.lay (S.Shelf.tells P.Pixel.solid) C.Chain.tells self.old sights.now b result self.new }
    {
        let mut tally = Tally::NONE;
        for y in b.top..b.bottom {
            let row = self.paint_row(sights, b.left, b.right, y);
            tally.add(row);
        }
        tally
    }

    // Paints a region, its boxes in their order.
    pub(crate) fn paint(&mut self, sights: &Sights, region: &Region) -> Tally
        ensures { PaintedList P.Pixel.lay (S.Shelf.tells P.Pixel.solid) C.Chain.tells self.old sights.now (list_of region.now) result self.new }
    {
        let mut tally = Tally::NONE;
        for b in region.boxes() {
            let part = self.paint_box(sights, *b);
            tally.add(part);
        }
        tally
    }
}
