// Runs document 01's worked addresses and the tests around them, and prints how many agreed and how many differed. Its stdout
// file holds what it must print; every line ends in '0 differed'.
#![tactic(auto)]

use std::io;

mod addresses;
mod refusals;
mod runs;

fn main(rt: HostRuntime) -> io::Result<()> {
    addresses::run(&rt)?;
    refusals::run(&rt)?;
    runs::run(&rt)
}
