// The machine's functions over the exported C functions, each of which is proved by the definitions of the entry behind
// it; q asks the entries themselves. They take from the stack (the last is the top), and answer in words of eight bytes
// from 240,000 of the memory on. `out` is the store slice.
//     g N base first         gathers in m[0..N]: number, address, total
//     p length item          the capsule m[0..length]: refusal; start and length of item, image, vendor code; type GUID
//                            (two words); index; instance; drivers; payloads
//     q digest length item   pushes the digest with the bytes of item, image and vendor code, as the entries of crates
//                            capsule_items and capsule_parts hand them out
//     y flags d t i c p room   packs: drivers m[20,000..] of d bytes, images m[30,000..] of i, vendor codes m[40,000..]
//                            of c, driver table m[50,000..] of t, payload table m[60,000..] of p, into m[70,000..] of
//                            room bytes: number, length; the size's number, size (lengths and sizes 99 before). Nothing
//                            with room above 10,000
//     u L booted             start-up on the area m[0..L]: number; kind, bank, set (4 0 0 with a refusal)
//     r L n                  repair with out[0..n]: number; 4 0 0; pairs; 0; altered
//     c call L n request     call 2 Begin, 3 Commit, 4 End, 5 Cancel, 6 Accept, 7 Select previous; the session stands
//                            in answers 1 to 3, the GUID at 239,000: number; kind, bank, set; pairs; missing; altered:
//                            how many numbers of out past the list are no more what they were
//     a pairs                does the first so many stores of out in m
//     o pairs size           pushes how many of the first so many pairs of out have an offset that is no multiple of 4
//                            or lies neither in 0 to size - 1 nor in 8,192 to 8,191 + size; 1 where out has fewer pairs
//     s L                    soundness: number, bits (99 with a refusal)
//     t digest L n           the report in the first n bytes of 4,352 that all hold 99: pushes the digest with the
//                            count answered and all 4,352 bytes, or as it was where n is above that
//     w digest L booted n room   the directory of the area m[0..L], the booted bank and n words, which stand from
//                            230,000 on as 32-bit numbers; it is written into the first `room` bytes of 2,700 that all
//                            hold 99: number, length (99 with a refusal). Pushes the digest with both and with all
//                            2,700 bytes, and puts these at 220,000. Nothing with n above 300 or room above 2,700
//     i length k             the directory m[0..length]: number (1000 where the functions return different ones);
//                            images, correct_boot; start and length of entry k's type GUID; its five numbers: as the
//                            functions leave them, each 99 before
// A session's kind, bank and set are 32-bit numbers, given as they are; with a refusal they are what the call left
// there. Where a length is past m or out, nothing is done.
#![tactic(auto)]

use reading::read_full;
use std::io;
use test_area_functions::{apply, report, soundness};
use test_call_functions::entry;
use test_capsule_functions::{gather, parts, told_of_item};
use test_directory_functions::{read, write};
use test_machine::{Turn, pop, push};
use test_packing_functions::pack;

fn function(w: &mut [u64; 256], m: &mut [u8], out: &mut [u32], c: u8) {
    match c {
        b'g' => gather(w, m),
        b'p' => told_of_item(w, m),
        b'q' => parts(w, m),
        b'y' => pack(w, m),
        b'u' | b'r' | b'c' => entry(w, m, out, c),
        b'a' => {
            let pairs = pop(w) as usize;
            apply(m, out, pairs, 0);
        }
        b'o' => {
            let size = pop(w) as usize;
            let pairs = pop(w) as usize;
            push(w, apply(&mut m[0..0], out, pairs, size));
        }
        b's' => soundness(w, m),
        b't' => report(w, m),
        b'w' => write(w, m),
        b'i' => read(w, m),
        _ => {}
    }
}

// Runs a script that was prepared, at most 2^40 orders of it.
fn run(
    rt: &impl Print,
    text: &[u8],
    w: &mut [u64; 256],
    m: &mut [u8],
    out: &mut [u32],
) -> io::Result<()> {
    for _ in 0..1099511627776u64 {
        match test_machine::step(rt, text, w, m)? {
            Turn::Ran => {}
            Turn::Ended => return Ok(()),
            Turn::Asked(letter) => function(w, m, out, letter),
        }
    }
    Ok(())
}

// Runs a script from its start, with a memory of 256 KiB and a store slice of 4,300 numbers.
fn start(rt: &impl Print, text: &mut [u8]) -> io::Result<()> {
    let mut w = [0u64; 256];
    let mut m = [0u8; 262144];
    let mut out = [0u32; 4300];
    test_machine::prepare(text, &mut w);
    run(rt, text, &mut w, &mut m, &mut out)
}

// The whole of a test program: the script on standard input.
pub fn play(rt: &(impl Print + Input)) -> io::Result<()> {
    let mut text = [0u8; 65536];
    let n = read_full(&mut rt.reader(), &mut text)?;
    start(rt, &mut text[..n])
}
