// Which buffer is the back next, modulo their number, and whether it is forgotten.
#[derive(Clone, Copy)]
pub struct Pick {
    pub buffer: u32,
    pub forget: bool,
}
