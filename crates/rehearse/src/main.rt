// Shows the parts at work: a frame of the ring, the two fabrics, then one station through failure and repair.
#![tactic(auto)]

mod fabrics;
mod frames;
mod station;

use fabrics::{show_register, show_table};
use frames::show_frame;
use station::show_station;
use std::io;

fn main(rt: HostRuntime) -> io::Result<()> {
    show_frame(&rt)?;
    show_table(&rt)?;
    show_register(&rt)?;
    show_station(&rt)
}
