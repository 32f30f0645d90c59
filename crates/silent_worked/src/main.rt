// Runs request 2, "A masked camera is a silent camera", over every format code, output and nibble of the mask, and prints how many
// trials agreed and how many differed. Its stdout file holds what it must print; every line ends in '0 differed'.
#![tactic(auto)]

use std::io;

mod outputs;

fn main(rt: HostRuntime) -> io::Result<()> {
    outputs::run(&rt)
}
