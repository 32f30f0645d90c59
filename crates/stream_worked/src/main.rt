// Runs document 01's worked stream and the tests around it, and prints how many agreed and how many differed. Its stdout
// file holds what it must print; every line ends in '0 differed'.
#![tactic(auto)]

use std::io;

mod streams;

fn main(rt: HostRuntime) -> io::Result<()> {
    streams::run(&rt)
}
