ghost use Rattle.std.specs.Prelude.{◌≡◌, IfOk, Some, None, MatchResult};
ghost use Rattle.reference.specs.Refusals.{open_refusal};
ghost use Rattle.panel.specs.Calls.{meaning, Opened, HandedBack};

use crate::panel::{Panel, Unopened};
use chain::Chain;
use pixel::Pixel;
use reference::Refusal;
use region::Display;
use scene::Scene;
use surface::Shelf;

// The display of a chain, or the refusal of one with a side that is not 1 to 1,024.
fn check<P: Pixel, C: Chain<P>>(chain: &mut C) -> Result<Display, Refusal>
    ensures display { IfOk result (λ d. (d.width ≡ (C.Chain.tells chain.old).width) × (d.height ≡ (C.Chain.tells chain.old).height)) }
    ensures first { MatchResult result (λ _. open_refusal (C.Chain.tells chain.old).width (C.Chain.tells chain.old).height ≡ None) (λ e. open_refusal (C.Chain.tells chain.old).width (C.Chain.tells chain.old).height ≡ Some e) }
    ensures same { C.Chain.tells chain.new ≡ C.Chain.tells chain.old }
{
    let width = chain.width();
    let height = chain.height();
    Display::new(width, height).ok_or(Refusal::BadDisplay)
}

impl<P: Pixel, S: Shelf<P>, C: Chain<P>> Panel<P, S, C> {
    // Makes a panel on a display that the chain has.
    fn make(shelf: S, chain: C, base: P, display: Display) -> Panel<P, S, C>
        requires width { display.width ≡ (C.Chain.tells chain).width }
        requires height { display.height ≡ (C.Chain.tells chain).height }
        ensures { Opened (meaning P.Pixel.lay (S.Shelf.tells P.Pixel.solid) S.Shelf.becomes C.Chain.tells) shelf chain base result }
    {
        let scene = Scene::open(&display);
        Panel {
            base,
            shelf,
            chain,
            display,
            scene,
        }
    }

    // Opens a panel on a shelf, a chain and a base pixel: nothing is on the stack, and the whole display is pending.
    pub fn open(shelf: S, mut chain: C, base: P) -> Result<Panel<P, S, C>, Unopened<S, C>>
        ensures { MatchResult result (λ p. Opened (meaning P.Pixel.lay (S.Shelf.tells P.Pixel.solid) S.Shelf.becomes C.Chain.tells) shelf chain base p)
            (λ u. HandedBack (meaning P.Pixel.lay (S.Shelf.tells P.Pixel.solid) S.Shelf.becomes C.Chain.tells) shelf chain u) }
    {
        // a match and no `?`: both answers take shelf and chain with them
        match check::<P, C>(&mut chain) {
            Ok(display) => Ok(Panel::make(shelf, chain, base, display)),
            Err(refusal) => Err(Unopened {
                refusal,
                shelf,
                chain,
            }),
        }
    }
}
