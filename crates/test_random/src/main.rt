// Random inputs for every entry but packing's, and digests of what the exported functions answer. The file stdin is a
// script for crate test_functions, which makes the inputs of second/GENERATORS.md. The lines of the file stdout but the
// last are those that crate test_random_packing expects before packing's: the second implementation (second/) prints
// them.
#![tactic(auto)]

use std::io;

fn main(rt: HostRuntime) -> io::Result<()> {
    test_functions::play(&rt)
}
