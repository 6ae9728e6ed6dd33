// A small stack machine that runs a text, one character an order: the test inputs are made by such scripts, whose lines
// cost no proof. It is total: what lies outside the memory or the text reads as 0 and is not written. Numbers are
// modulo 2^64.
//
//   # .. line's end    a comment
//   blank, newline     ends a number
//   0-9                the first digit of a number pushes it, each next one makes the top ten times it and the digit
//   a letter           pushes that variable
//   : letter           pops into that variable
//   + - * / %          pop b, pop a, push a op b; 0 where b is a divisor 0
//   & | ^              and, or, exclusive or of a and b
//   < =                1 where a < b, where a = b; else 0 (a character that stands nowhere here does what = does)
//   !                  pops a; 1 where a is 0, else 0
//   ?                  pops n; one draw; pushes the draw mod n
//   ( .. )             pops n; the text between is run n times
//   [ letter .. ]      a procedure of that name, passed over where it stands
//   . letter           runs that procedure
//   @                  pops width, pops offset; pushes the little-endian number of so many bytes (to 8) of the memory
//   $                  pops width, pops offset, pops value; writes it there
//   " .. "             prints the text between
//   ;                  pops a number and prints it in decimal
//   ~ letter           a function; it takes from the stack (the last is the top):
//     x group seed k       starts the draws
//     f offset n tint      filler: byte i of n is (7 i + 13 (i / 256) + tint) mod 256
//     z offset n value     n bytes of that value
//     m from to n          copies n bytes, ascending
//     k offset n           pushes their CRC-32
//     d digest n           pushes the digest with a 32-bit number more
//     b digest offset n    pushes the digest with bytes more
//     h n                  prints n as 8 hexadecimal digits
//     any other            is the program's own: `step` answers its letter
//
// The words w: a variable is the word (letter mod 64), the value stack stands at 64 to 127, frames of two words at 128
// to 191 (where to go on, and how many turns are left, 0 for a procedure), procedures' positions at 192 to 255. Both
// stacks are rings: past the end they go on at the beginning. No letter names the words below. A text between quotes
// has no `#`, `[`, `(`, `)` or `]` in it.
#![tactic(auto)]

pub mod answers;
pub mod bytes;

use std::io;

const POSITION: usize = 0;

const DEPTH: usize = 27;

const FRAMES: usize = 28;

const NUMBER: usize = 29;

const DRAWS: usize = 30;

// What `step` came to: it ran an order, the text is at its end, or it met the letter of a function of the program's.
#[derive(Clone, Copy, Debug, PartialEq, Eq)]
pub enum Turn {
    Ran,
    Ended,
    Asked(u8),
}

pub fn push(w: &mut [u64; 256], v: u64) {
    let d = w[DEPTH] % 64;
    w[DEPTH] = d + 1;
    w[64 + d as usize] = v;
}

pub fn pop(w: &mut [u64; 256]) -> u64 {
    let d = (w[DEPTH] % 64 + 63) % 64;
    w[DEPTH] = d;
    w[64 + d as usize]
}

fn calculated(c: u8, a: u64, b: u64) -> u64 {
    match c {
        b'+' => a.wrapping_add(b),
        b'-' => a.wrapping_sub(b),
        b'*' => a.wrapping_mul(b),
        b'/' => if b == 0 { 0 } else { a / b },
        b'%' => if b == 0 { 0 } else { a % b },
        b'&' => a & b,
        b'|' => a | b,
        b'^' => a ^ b,
        b'<' => u64::from(a < b),
        _ => u64::from(a == b),
    }
}

// The draws' state after one draw (second/GENERATORS.md).
fn drawn(x: u64) -> u64 {
    (x % 2147483648 * 1103515245 + 12345) % 2147483648
}

// One of four steps at the start of the draws.
fn stirred(x: u64) -> u64 {
    let y = x % 2147483648;
    drawn(y.wrapping_mul(y / 65536 * 2 + 1) % 2147483648 + 12345)
}

fn start(w: &mut [u64; 256]) {
    let k = pop(w) % 2147483648;
    let seed = pop(w) % 2147483648;
    let group = pop(w) % 2147483648;
    let x = seed * 69069 + k * 48271 + group * 16807 + 1;
    w[DRAWS] = stirred(stirred(stirred(stirred(x))));
}

// The next character; 0 at the end.
fn next(text: &[u8], w: &mut [u64; 256]) -> u8 {
    let at = w[POSITION] as usize;
    if at < text.len() {
        w[POSITION] = at as u64 + 1;
        text[at]
    } else {
        0
    }
}

// A digit goes on with a number where the last order was a digit too, which ended where NUMBER says.
fn digit(w: &mut [u64; 256], c: u8) {
    let at = w[POSITION];
    if w[NUMBER] % 4294967296 + 1 != at {
        push(w, 0);
    }
    w[NUMBER] = at;
    let top = 64 + ((w[DEPTH] % 64 + 63) % 64) as usize;
    w[top] = w[top].wrapping_mul(10).wrapping_add(u64::from(c % 16));
}

// Behind the end of what is open at `from`.
fn past(text: &[u8], from: usize, open: u8, close: u8) -> usize {
    let mut depth: u64 = 1;
    for i in from..text.len() {
        let opened = depth.wrapping_add(u64::from(text[i] == open));
        depth = opened.wrapping_sub(u64::from(text[i] == close));
        if depth == 0 {
            return i + 1;
        }
    }
    from.max(text.len())
}

// A frame of a loop, or with no turns of a procedure.
fn enter(w: &mut [u64; 256], turns: u64) {
    let f = w[FRAMES] % 32;
    let at = 128 + (f * 2) as usize;
    w[FRAMES] = f + 1;
    w[at] = w[POSITION];
    w[at + 1] = turns;
}

// The end of a loop's text or of a procedure.
fn leave(w: &mut [u64; 256]) {
    let f = (w[FRAMES] % 32 + 31) % 32;
    let at = 128 + (f * 2) as usize;
    let turns = w[at + 1];
    if turns != 1 {
        w[POSITION] = w[at];
    }
    if turns < 2 {
        w[FRAMES] = f;
    } else {
        w[at + 1] = turns - 1;
    }
}

// Goes behind the end of what is open.
fn pass(text: &[u8], w: &mut [u64; 256], open: u8, close: u8) {
    w[POSITION] = past(text, w[POSITION] as usize, open, close) as u64;
}

fn control(text: &[u8], w: &mut [u64; 256], c: u8) {
    match c {
        b'(' => {
            let n = pop(w);
            if n == 0 {
                pass(text, w, b'(', b')')
            } else {
                enter(w, n)
            }
        }
        b'.' => {
            let name = (next(text, w) % 64) as usize;
            enter(w, 0);
            w[POSITION] = w[192 + name];
        }
        b'[' => pass(text, w, 0, b']'),
        b'#' => pass(text, w, 0, b'\n'),
        _ => leave(w),
    }
}

fn memory(w: &mut [u64; 256], m: &mut [u8], c: u8) {
    let width = pop(w) as usize;
    let at = pop(w) as usize;
    if c == b'@' {
        push(w, bytes::load(m, at, width));
    } else {
        let v = pop(w);
        bytes::store(m, at, width, v);
    }
}

// Prints the text up to the next quote.
fn quote(rt: &impl Print, text: &[u8], w: &mut [u64; 256]) -> io::Result<()> {
    let at = w[POSITION] as usize;
    let end = past(text, at, 0, b'"');
    w[POSITION] = end as u64;
    if text.len() < end || end <= at {
        return Ok(());
    }
    rt.write_all(&text[at..end - 1])
}

// An order over the top of the stack and, where it has two numbers, the one below it.
fn calculate(w: &mut [u64; 256], c: u8) {
    let b = pop(w);
    if c == b'!' {
        push(w, u64::from(b == 0));
        return;
    }
    if c == b'?' {
        let x = drawn(w[DRAWS]);
        w[DRAWS] = x;
        push(w, calculated(b'%', x / 65536, b));
        return;
    }
    let a = pop(w);
    push(w, calculated(c, a, b));
}

fn order(rt: &impl Print, text: &[u8], w: &mut [u64; 256], m: &mut [u8], c: u8) -> io::Result<()> {
    match c {
        0..=b' ' => {}
        b'0'..=b'9' => digit(w, c),
        b'a'..=b'z' | b'A'..=b'Z' => {
            let v = w[(c % 64) as usize];
            push(w, v);
        }
        b':' => {
            let name = (next(text, w) % 64) as usize;
            w[name] = pop(w);
        }
        b'(' | b')' | b'[' | b']' | b'.' | b'#' => control(text, w, c),
        b'@' | b'$' => memory(w, m, c),
        b'"' => quote(rt, text, w)?,
        b';' => {
            let n = pop(w);
            print!(rt; "{n}")?;
        }
        _ => calculate(w, c),
    }
    Ok(())
}

// A function of the machine's own with three numbers, over bytes. A value is copied on from the first byte.
fn over(w: &mut [u64; 256], m: &mut [u8], c: u8) {
    let x = pop(w);
    let y = pop(w) as usize;
    let z = pop(w);
    match c {
        b'f' => bytes::filler(m, z as usize, y, x as usize),
        b'z' => {
            if 0 < y {
                bytes::store(m, z as usize, 1, x);
                bytes::copy(m, z as usize, (z as usize).wrapping_add(1), y - 1);
            }
        }
        b'm' => bytes::copy(m, z as usize, y, x as usize),
        _ => push(w, bytes::digest_bytes(bytes::part(m, y, x as usize), z)),
    }
}

// The functions of the machine's own.
fn function(rt: &impl Print, w: &mut [u64; 256], m: &mut [u8], c: u8) -> io::Result<Turn> {
    match c {
        b'x' => start(w),
        b'f' | b'z' | b'm' | b'b' => over(w, m, c),
        b'k' => {
            let n = pop(w) as usize;
            let at = pop(w) as usize;
            push(w, u64::from(record_crc::crc32(bytes::part(m, at, n))));
        }
        b'd' => {
            let n = pop(w);
            let d = pop(w);
            push(w, bytes::digest(d, n));
        }
        b'h' => {
            let n = pop(w);
            print!(rt; "{n:08x}")?;
        }
        // no letter: it ends the text
        1 => return Ok(Turn::Ended),
        _ => return Ok(Turn::Asked(c)),
    }
    Ok(Turn::Ran)
}

// Runs the order at the position. It fails only where that order prints and the text does not get out.
pub fn step(rt: &impl Print, text: &[u8], w: &mut [u64; 256], m: &mut [u8]) -> io::Result<Turn> {
    let c = next(text, w);
    if c == 0 {
        return Ok(Turn::Ended);
    }
    if c == b'~' {
        let name = next(text, w);
        return function(rt, w, m, name);
    }
    order(rt, text, w, m, c)?;
    Ok(Turn::Ran)
}

// Looks at the character at i, behind a comment's beginning or not, and answers which it is then.
fn look(s: &mut [u8], w: &mut [u64; 256], i: usize, comment: bool) -> bool {
    let c = bytes::byte(s, i);
    if c == b'#' || c == b'\n' {
        return c == b'#';
    }
    if comment {
        bytes::store(s, i, 1, 32);
        return true;
    }
    if c == b'[' {
        let name = (bytes::byte(s, i.wrapping_add(1)) % 64) as usize;
        w[192 + name] = (i as u64).wrapping_add(2);
    }
    false
}

// Blanks the comments of a text, so that no bracket of theirs counts, and notes where procedures begin.
pub fn prepare(s: &mut [u8], w: &mut [u64; 256]) {
    let mut comment = false;
    for i in 0..s.len() {
        comment = look(s, w, i, comment);
    }
}
