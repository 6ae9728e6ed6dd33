// The functions w and i of crate test_functions, over image directories.
#![tactic(auto)]

use c_directory_reader::meanderpeg_directory_check;
use c_directory_values::{meanderpeg_directory_numbers, meanderpeg_directory_type_guid};
use c_directory_writer::meanderpeg_directory_write;
use test_machine::answers::{answer, same};
use test_machine::bytes::{digest, digest_bytes, load, store};
use test_machine::{pop, push};

// Where the words stand that the writer is given, and where its output is put.
const WORDS_FROM: usize = 230000;

const WRITTEN_FROM: usize = 220000;

fn low(n: u64) -> u32 {
    (n % 4294967296) as u32
}

fn words(m: &[u8]) -> [u32; 300] {
    let mut given = [0u32; 300];
    for i in 0..given.len() {
        given[i] = low(load(m, WORDS_FROM + 4 * i, 4));
    }
    given
}

fn put(m: &mut [u8], written: &[u8; 2700]) {
    for i in 0..675 {
        store(m, WRITTEN_FROM + 4 * i, 4, load(written, 4 * i, 4));
    }
}

// Puts the answers of the writer and its output into the memory, and answers the digest with them.
fn told(m: &mut [u8], number: u32, length: usize, written: &[u8; 2700], d: u64) -> u64 {
    let mut a = [0u64; 13];
    a[0] = u64::from(number);
    a[1] = length as u64;
    answer(m, &a);
    put(m, written);
    digest_bytes(written, digest(digest(d, a[0]), a[1]))
}

pub fn write(w: &mut [u64; 256], m: &mut [u8]) {
    let room = pop(w) as usize;
    let n = pop(w) as usize;
    let booted = low(pop(w));
    let length = pop(w) as usize;
    let d = pop(w);
    if m.len() < length || 300 < n || 2700 < room {
        return;
    }
    let given = words(m);
    let mut written = [99u8; 2700];
    let mut size: usize = 99;
    let number = meanderpeg_directory_write(
        &m[0..length],
        booted,
        &given[0..n],
        &mut written[0..room],
        &mut size,
    );
    push(w, told(m, number, size, &written, d));
}

// What is shown of a directory and of entry k, each 99 before.
fn shown(s: &[u8], k: usize) -> [u64; 13] {
    let mut header = [99u32; 2];
    let mut guid = [99usize; 2];
    let mut numbers = [99u32; 5];
    let of_header = meanderpeg_directory_check(s, &mut header);
    let of_guid = meanderpeg_directory_type_guid(s, k, &mut guid);
    let of_numbers = meanderpeg_directory_numbers(s, k, &mut numbers);
    let mut a = [0u64; 13];
    a[0] = u64::from(same(of_header, same(of_guid, of_numbers)));
    a[1] = u64::from(header[0]);
    a[2] = u64::from(header[1]);
    a[3] = guid[0] as u64;
    a[4] = guid[1] as u64;
    a[5] = u64::from(numbers[0]);
    a[6] = u64::from(numbers[1]);
    a[7] = u64::from(numbers[2]);
    a[8] = u64::from(numbers[3]);
    a[9] = u64::from(numbers[4]);
    a
}

pub fn read(w: &mut [u64; 256], m: &mut [u8]) {
    let k = pop(w) as usize;
    let length = pop(w) as usize;
    if m.len() < length {
        return;
    }
    let a = shown(&m[0..length], k);
    answer(m, &a);
}
