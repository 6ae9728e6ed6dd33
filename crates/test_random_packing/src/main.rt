// Random inputs for every entry, packing's too, and digests of what the exported functions answer. The file stdin is a
// script for crate test_functions, which makes the inputs of second/GENERATORS.md; the file stdout is what the second
// implementation (second/) prints for the same seed.
#![tactic(auto)]

use std::io;

fn main(rt: HostRuntime) -> io::Result<()> {
    test_functions::play(&rt)
}
