// Runs document 01's worked steps and the edges of its rules and of request 4's on flow words, and prints how many trials agreed and how many
// differed. Its stdout file holds what it must print; every line ends in '0 differed'.
#![tactic(auto)]

use std::io;

mod programs;
mod stepping;
mod turning;

fn main(rt: HostRuntime) -> io::Result<()> {
    stepping::run(&rt)?;
    programs::run(&rt)?;
    turning::run(&rt)
}
