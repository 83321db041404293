use reference::Refusal;
use region::Display;
use scene::Scene;

// A panel on a shelf S of surfaces and a chain C of picture buffers, both of pixels P: what it was opened on is then
// reached through it only. The display has the chain's size.
#[derive(Drop)]
pub struct Panel<P, S, C> {
    pub(crate) base: P,
    pub(crate) shelf: S,
    pub(crate) chain: C,
    pub(crate) display: Display,
    pub(crate) scene: Scene,
}

// An opening that was refused: shelf and chain are handed back.
#[derive(Drop)]
pub struct Unopened<S, C> {
    pub refusal: Refusal,
    pub shelf: S,
    pub chain: C,
}
