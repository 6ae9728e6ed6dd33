// Start-up and repair on areas that break each rule of a sound record, and by their own arguments; the six calls on
// the samples, on both ends of each refusal's limit and on whole updates. The cases stand in the file stdin,
// a script for crate test_functions.
#![tactic(auto)]

use std::io;

fn main(rt: HostRuntime) -> io::Result<()> {
    test_functions::play(&rt)
}
