// The writer and the reader of image directories: both ends of each refusal's limit, their order, what a directory
// shows, and what was written read back. The cases stand in the file stdin, a script for crate test_functions.
#![tactic(auto)]

use std::io;

fn main(rt: HostRuntime) -> io::Result<()> {
    test_functions::play(&rt)
}
