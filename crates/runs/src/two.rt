use panel::{Panel, Unopened};

// Two panels that were opened and run on the same calls, or the refusals that their openings met.
#[derive(Drop)]
pub struct Two<P, S, C, T, D> {
    pub first: Result<Panel<P, S, C>, Unopened<S, C>>,
    pub second: Result<Panel<P, T, D>, Unopened<T, D>>,
}
