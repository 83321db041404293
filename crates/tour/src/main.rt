#![tactic(auto)]

mod ages;
mod blended;
mod boxes;
mod crowded;
mod display;
mod frames;
mod joins;
mod met;
mod pixels;
mod regions;
mod surfaces;
mod table;
mod worked;

use ages::show_ages;
use blended::show_blended;
use crowded::show_crowded;
use display::show_panel;
use pixels::{show_index, show_premultiplied};
use regions::show_damage;
use std::io;
use surfaces::{show_figure, show_sheet};
use table::show_table;

// A tour of the compositor, layer by layer: each part does one small task on the real code and prints what it did.
fn main(rt: HostRuntime) -> io::Result<()> {
    show_premultiplied(&rt)?;
    show_index(&rt)?;
    show_damage(&rt)?;
    show_crowded(&rt)?;
    show_figure(&rt)?;
    show_sheet(&rt)?;
    show_ages(&rt)?;
    show_panel(&rt)?;
    show_blended(&rt)?;
    show_table(&rt)
}
