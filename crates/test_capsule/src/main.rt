// The capsule's entries at both ends of every limit (C1 to C25), and on sample 12. The cases stand in
// the file stdin, a script for crate test_functions.
#![tactic(auto)]

use std::io;

fn main(rt: HostRuntime) -> io::Result<()> {
    test_functions::play(&rt)
}
