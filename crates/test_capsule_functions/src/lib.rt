// The functions g, p and q of crate test_functions, over gathering and capsules.
#![tactic(auto)]

use c_capsule::meanderpeg_capsule_check;
use c_gather::meanderpeg_gather;
use c_image::meanderpeg_capsule_image;
use c_item::meanderpeg_capsule_item;
use c_values::{
    meanderpeg_capsule_hardware_instance, meanderpeg_capsule_image_index,
    meanderpeg_capsule_type_guid,
};
use c_vendor_code::meanderpeg_capsule_vendor_code;
use test_machine::answers::{BEFORE, answer, behind, same};
use test_machine::bytes::{digest_bytes, load};
use test_machine::{pop, push};

// Eight bytes that hold BEFORE.
const BYTES_BEFORE: u64 = 0x6363_6363_6363_6363;

// BEFORE, where a size stands.
const SIZE_BEFORE: usize = 99;

pub fn gather(w: &mut [u64; 256], m: &mut [u8]) {
    let first = pop(w);
    let base = pop(w);
    let n = pop(w) as usize;
    if m.len() < n {
        return;
    }
    let mut place = [BEFORE; 2];
    let number = meanderpeg_gather(&mut m[0..n], base, first, &mut place);
    let mut a = [0u64; 13];
    a[0] = u64::from(number);
    a[1] = behind(number, place[0], BEFORE);
    a[2] = behind(number, place[1], BEFORE);
    answer(m, &a);
}

// A start, a length or a count behind a reference, as an answer.
fn size_behind(number: u32, v: usize) -> u64 {
    behind(number, v as u64, BEFORE)
}

// Eight bytes of a GUID.
fn half(guid: &[u8; 16], at: usize) -> u64 {
    load(guid, at, 8)
}

// Item, image and vendor code of item k of the capsule s, each by start and length.
fn parts_told(s: &[u8], k: usize, a: &mut [u64; 13]) -> u32 {
    let mut item = [SIZE_BEFORE; 2];
    let mut image = [SIZE_BEFORE; 2];
    let mut code = [SIZE_BEFORE; 2];
    let of_item = meanderpeg_capsule_item(s, k, &mut item);
    let of_image = meanderpeg_capsule_image(s, k, &mut image);
    let of_code = meanderpeg_capsule_vendor_code(s, k, &mut code);
    a[1] = size_behind(of_item, item[0]);
    a[2] = size_behind(of_item, item[1]);
    a[3] = size_behind(of_image, image[0]);
    a[4] = size_behind(of_image, image[1]);
    a[5] = size_behind(of_code, code[0]);
    a[6] = size_behind(of_code, code[1]);
    same(of_item, same(of_image, of_code))
}

// Type GUID, image index and hardware instance of item k.
fn values_told(s: &[u8], k: usize, a: &mut [u64; 13]) -> u32 {
    let mut guid = [99u8; 16];
    let mut index = 99u8;
    let mut instance = BEFORE;
    let of_guid = meanderpeg_capsule_type_guid(s, k, &mut guid);
    let of_index = meanderpeg_capsule_image_index(s, k, &mut index);
    let of_instance = meanderpeg_capsule_hardware_instance(s, k, &mut instance);
    a[7] = behind(of_guid, half(&guid, 0), BYTES_BEFORE);
    a[8] = behind(of_guid, half(&guid, 8), BYTES_BEFORE);
    a[9] = behind(of_index, u64::from(index), BEFORE);
    a[10] = behind(of_instance, instance, BEFORE);
    same(of_guid, same(of_index, of_instance))
}

// The numbers of drivers and payloads. The check of the whole capsule returns what the functions of item k do, but for
// 16, or this returns 1000.
fn counts_told(s: &[u8], of_item: u32, a: &mut [u64; 13]) -> u32 {
    let mut counts = [SIZE_BEFORE; 2];
    let number = meanderpeg_capsule_check(s, &mut counts);
    a[11] = size_behind(number, counts[0]);
    a[12] = size_behind(number, counts[1]);
    if of_item == 16 && number == 0 {
        return of_item;
    }
    same(of_item, number)
}

// What is told of item k of the capsule s.
fn told(s: &[u8], k: usize) -> [u64; 13] {
    let mut a = [0u64; 13];
    let of_parts = parts_told(s, k, &mut a);
    let of_values = values_told(s, k, &mut a);
    let number = counts_told(s, same(of_parts, of_values), &mut a);
    a[0] = u64::from(number);
    a
}

pub fn told_of_item(w: &mut [u64; 256], m: &mut [u8]) {
    let k = pop(w) as usize;
    let n = pop(w) as usize;
    if m.len() < n {
        return;
    }
    let a = told(&m[0..n], k);
    answer(m, &a);
}

// The digest with the bytes of item k, of its image and of its vendor code, as the entries hand them out.
fn with_parts(s: &[u8], k: usize, d: u64) -> u64 {
    let item = capsule_items::item(s, k);
    let image = capsule_parts::image(s, k);
    let code = capsule_parts::vendor_code(s, k);
    let x = digest_bytes(item, d);
    let y = digest_bytes(image, x);
    digest_bytes(code, y)
}

pub fn parts(w: &mut [u64; 256], m: &[u8]) {
    let k = pop(w) as usize;
    let n = pop(w) as usize;
    let d = pop(w);
    if m.len() < n {
        return;
    }
    push(w, with_parts(&m[0..n], k, d));
}
