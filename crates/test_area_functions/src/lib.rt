// The functions a, o, s and t of crate test_functions, over lists of stores and over areas.
#![tactic(auto)]

use c_area::{meanderpeg_report, meanderpeg_soundness};
use test_machine::answers::answer;
use test_machine::bytes::{digest, digest_bytes, store};
use test_machine::{pop, push};

// Where copy 1 starts.
const COPY_1: usize = 8192;

// Whether a store's offset is no multiple of 4 or lies in neither record range.
fn astray(at: usize, size: usize) -> bool {
    at % 4 != 0 || size <= at && (at < COPY_1 || size <= at - COPY_1)
}

// Does the first so many stores of a list, and answers how many of their offsets are astray; 1 where the list has
// fewer.
pub fn apply(m: &mut [u8], out: &[u32], pairs: usize, size: usize) -> u64 {
    if out.len() / 2 < pairs {
        return 1;
    }
    let mut count: u64 = 0;
    for i in 0..pairs {
        let at = out[2 * i] as usize;
        store(m, at, 4, u64::from(out[2 * i + 1]));
        count = count.wrapping_add(u64::from(astray(at, size)));
    }
    count
}

pub fn soundness(w: &mut [u64; 256], m: &mut [u8]) {
    let n = pop(w) as usize;
    if m.len() < n {
        return;
    }
    let mut bits: u32 = 99;
    let number = meanderpeg_soundness(&m[0..n], &mut bits);
    let mut a = [0u64; 13];
    a[0] = u64::from(number);
    a[1] = u64::from(bits);
    answer(m, &a);
}

// The digest with the report in the first k bytes of the text, and with all of it; where it has fewer, the digest as it
// was.
fn with_report(area: &[u8], text: &mut [u8], k: usize, d: u64) -> u64 {
    if text.len() < k {
        return d;
    }
    let n = meanderpeg_report(area, &mut text[0..k]);
    digest_bytes(text, digest(d, n as u64))
}

pub fn report(w: &mut [u64; 256], m: &[u8]) {
    let k = pop(w) as usize;
    let n = pop(w) as usize;
    let d = pop(w);
    if m.len() < n {
        return;
    }
    let mut text = [99u8; 4352];
    push(w, with_report(&m[0..n], &mut text, k, d));
}
