// Runs the tests of elements in lent memory, and prints how many agreed and how many differed. Its stdout
// file holds what it must print; every line ends in '0 differed'.
#![tactic(auto)]

use std::io;

mod elements;

fn main(rt: HostRuntime) -> io::Result<()> {
    elements::run(&rt)
}
