// The function y of crate test_functions, over packing a capsule.
#![tactic(auto)]

use c_packing::{meanderpeg_capsule_pack, meanderpeg_capsule_packed_size};
use test_machine::answers::answer;
use test_machine::bytes::{byte, load, part, store};
use test_machine::pop;

// Where the slices and tables stand that are lent, and the output slice.
const DRIVERS_FROM: usize = 20000;

const IMAGES_FROM: usize = 30000;

const VENDOR_CODES_FROM: usize = 40000;

const DRIVER_TABLE_FROM: usize = 50000;

const PAYLOAD_TABLE_FROM: usize = 60000;

const OUTPUT_FROM: usize = 70000;

// The output slice as it stands in the memory.
fn output(m: &[u8]) -> [u8; 10000] {
    let mut out = [0u8; 10000];
    for i in 0..out.len() {
        out[i] = byte(m, OUTPUT_FROM + i);
    }
    out
}

fn put(m: &mut [u8], out: &[u8; 10000]) {
    for i in 0..1250 {
        store(m, OUTPUT_FROM + 8 * i, 8, load(out, 8 * i, 8));
    }
}

// Puts the answers and the output slice into the memory.
fn told(m: &mut [u8], numbers: [u32; 2], lengths: [usize; 2], out: &[u8; 10000]) {
    let mut a = [0u64; 13];
    a[0] = u64::from(numbers[0]);
    a[1] = lengths[0] as u64;
    a[2] = u64::from(numbers[1]);
    a[3] = lengths[1] as u64;
    answer(m, &a);
    put(m, out);
}

// How much is lent of each slice and table.
#[derive(Clone, Copy)]
struct Lent {
    flags: u32,
    drivers: usize,
    driver_table: usize,
    images: usize,
    vendor_codes: usize,
    payload_table: usize,
}

fn lengths(w: &mut [u64; 256]) -> Lent {
    let payload_table = pop(w) as usize;
    let vendor_codes = pop(w) as usize;
    let images = pop(w) as usize;
    let driver_table = pop(w) as usize;
    let drivers = pop(w) as usize;
    let flags = (pop(w) % 4294967296) as u32;
    Lent {
        flags,
        drivers,
        driver_table,
        images,
        vendor_codes,
        payload_table,
    }
}

pub fn pack(w: &mut [u64; 256], m: &mut [u8]) {
    let room = pop(w) as usize;
    let given = lengths(w);
    if 10000 < room {
        return;
    }
    let mut out = output(m);
    let mut written: usize = 99;
    let mut size: usize = 99;
    let drivers = part(m, DRIVERS_FROM, given.drivers);
    let driver_table = part(m, DRIVER_TABLE_FROM, given.driver_table);
    let images = part(m, IMAGES_FROM, given.images);
    let codes = part(m, VENDOR_CODES_FROM, given.vendor_codes);
    let payload_table = part(m, PAYLOAD_TABLE_FROM, given.payload_table);
    let of_size = meanderpeg_capsule_packed_size(
        given.flags,
        drivers,
        driver_table,
        images,
        codes,
        payload_table,
        &mut size,
    );
    let number = meanderpeg_capsule_pack(
        given.flags,
        drivers,
        driver_table,
        images,
        codes,
        payload_table,
        &mut out[0..room],
        &mut written,
    );
    told(m, [number, of_size], [written, size], &out);
}
