// Gathering on the samples of docs/RULES.md and on both ends of each limit (G1 to G17). The cases stand in the file stdin, a
// script for crate test_functions.
#![tactic(auto)]

use std::io;

fn main(rt: HostRuntime) -> io::Result<()> {
    test_functions::play(&rt)
}
