// The order in which the pixels of a buffer lie in memory. There is one today; another is a case here and an arm where
// it is asked.
#[derive(Clone, Copy)]
pub enum Layout {
    // row by row from the top, each from the left
    Rows,
}
