// An entry's answers, put into the memory as words of eight bytes from ANSWERS on.
use crate::bytes::store;

pub const ANSWERS: usize = 240000;

// What stands behind a reference before a call, so that a refusal that alters it is seen.
pub const BEFORE: u64 = 99;

// What stands behind a reference, as an answer: with a refusal how it differs from what stood there, so 0 where it is
// as it was.
pub fn behind(number: u32, v: u64, before: u64) -> u64 {
    if number == 0 { v } else { v ^ before }
}

// Puts the answers of an entry into the memory.
pub fn answer(m: &mut [u8], a: &[u64; 13]) {
    for i in 0..a.len() {
        store(m, ANSWERS + 8 * i, 8, a[i]);
    }
}

// The number that two functions return, or 1000 where they differ.
pub fn same(x: u32, y: u32) -> u32 {
    if x == y { x } else { 1000 }
}
