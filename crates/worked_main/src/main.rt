// Runs each call on document 01's worked cases, on inputs at the limits and on one input for each refusal, a module for each call, and
// prints what it answers: the file stdout has what it must print.
#![tactic(auto)]

mod asking;
mod bridge;
mod building;
mod explaining;
mod reading;
mod running;
mod writing;

use std::io;

fn main(rt: HostRuntime) -> io::Result<()> {
    let mut out = rt.stdout();
    reading::run(&mut out)?;
    building::run(&mut out)?;
    asking::run(&mut out)?;
    explaining::run(&mut out)?;
    running::run(&mut out)?;
    writing::run(&mut out)
}
