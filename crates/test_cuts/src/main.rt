// Power cuts (P2 to P11): each call of a change is cut after every number of its stores, and the
// repairs behind it in the same way, two deep. The changes stand in the file stdin, a script for crate test_functions.
#![tactic(auto)]

use std::io;

fn main(rt: HostRuntime) -> io::Result<()> {
    test_functions::play(&rt)
}
