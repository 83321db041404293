#![tactic(auto)]

mod channel;
mod index;
mod pixel;
mod premultiplied;

pub use channel::{lay_channel, near};
pub use pixel::Pixel;
pub use premultiplied::is_premultiplied;
