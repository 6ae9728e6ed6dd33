// Packing a capsule: both ends of each refusal's limit, their order, what is packed read back, and a capsule read and
// packed again. The cases stand in the file stdin, a script for crate test_functions.
#![tactic(auto)]

use std::io;

fn main(rt: HostRuntime) -> io::Result<()> {
    test_functions::play(&rt)
}
