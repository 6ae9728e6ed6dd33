// The reports of the sample areas in data/: each file's name, then its report, as print_report prints it.
// bench/report/main.rs made the files and says what is in them.
#![tactic(auto)]

use reading::fill;
use std::io::Read;
use std::rt::Files;
use std::{fs, io};

// What print_report does with its standard input.
fn print<R: Read>(rt: &impl Print, file: &mut R) -> io::Result<()> {
    let mut area = [0u8; 16385];
    let (n, _) = fill(file, &mut area);
    let mut text = [0u8; 4096];
    let m = report::report(&area[..n], &mut text);
    rt.write_all(&text[..m])
}

fn show(rt: &(impl Print + Eprint + Files), name: &str) -> io::Result<()> {
    println!(rt; "{name}")?;
    match fs::open(rt, name) {
        Ok(mut file) => print(rt, &mut file),
        Err(e) => eprintln!(rt; "{name}: {e}"),
    }
}

// A slice that is too short for some report: the answer, and the first byte as it was.
fn short_slice(rt: &impl Print) -> io::Result<()> {
    let area = [0u8; 0];
    let mut text = [7u8; 4095];
    println!(rt; "slice of 4095")?;
    let answer = report::report(&area, &mut text);
    println!(rt; "{answer} {}", text[0])
}

fn main(rt: HostRuntime) -> io::Result<()> {
    show(&rt, "example")?;
    show(&rt, "four_banks")?;
    show(&rt, "copy_0_spoilt")?;
    show(&rt, "copies_differ")?;
    show(&rt, "both_spoilt")?;
    show(&rt, "one_byte_short")?;
    show(&rt, "one_byte_long")?;
    show(&rt, "empty")?;
    short_slice(&rt)
}
