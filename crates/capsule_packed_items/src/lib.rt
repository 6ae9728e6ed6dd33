// The capsule's bytes, put at the front of the output slice step by step (C28 to C30): what comes before the list of
// offsets, the list, the items. The packer has tested parts, size and room; each function asks that of its caller.
#![tactic(auto)]

ghost use Rattle.std.specs.Prelude.{◌≡◌, true, ◌+◌, ◌*◌, ◌≤◌, length};
ghost use Rattle.fields.specs.Number.{put};
ghost use Rattle.fields.specs.Joined.{joined};
ghost use Rattle.capsule_contents.specs.Contents.{payload_header_bytes, payload_bytes, items_of, item_bytes, capsule_bytes};
ghost use Rattle.capsule_contents.specs.Given.{given};
ghost use Rattle.capsule_contents.specs.Lent.{contents_of, range_at, length_at, bytes_of};
ghost use Rattle.capsule_packing_rules.specs.Rules.{inside, capsule_size};
ghost use Rattle.capsule_packed_items.specs.Step.{front_bytes, offsets_bytes, PayloadReady, ItemReady, Packable};

use capsule_contents::{
    DRIVER_ENTRY, IMAGE_AT, IMAGE_INDEX_AT, INSTANCE_AT, Lending, PAYLOAD_ENTRY, TYPE_GUID_AT,
    VENDOR_CODE_AT, item_size,
};
use capsule_header::FMP_GUID;
use capsule_packing_rules::FRONT;
use capsule_payloads::header_length;
use field_writes::{write_guid, write_part, write_words, write16, write32, write64};
use fields::{read32, read64};

// Puts the header, and the body's version and counts.
fn put_front(flags: u32, size: u32, drivers: u16, payloads: u16, out: &mut [u8])
    requires { 36 ≤ length out.old }
    ensures { out.new ≡ put out.old 0 (front_bytes flags size drivers payloads) }
{
    write_guid(out, 0, &FMP_GUID, 0);
    write_words(out, 16, &[28, flags, size, 1]);
    write16(out, 32, drivers);
    write16(out, 34, payloads);
}

// Puts the offsets of all items, each behind the one before.
fn put_offsets(lending: &Lending, out: &mut [u8])
    requires { Packable (given lending.now) (length out.old) }
    ensures { out.new ≡ put out.old 36 (offsets_bytes lending.now.driver_table.now
        lending.now.payload_table.now (items_of (contents_of (given lending.now)))) }
{
    let items = lending.items();
    let mut offset = 8 + 8 * items;
    for k in 0..items {
        write64(out, FRONT + 8 * k, offset as u64);
        offset += item_size(lending, k);
    }
}

// Puts the part of `slice` that the table tells at `entry`.
fn put_part(slice: &[u8], table: &[u8], entry: usize, at: usize, out: &mut [u8])
    requires { (entry + 16 ≤ length table.now) × (inside slice.now (range_at table.now entry) ≡ true)
        × (at + length_at table.now entry ≤ length out.old) }
    ensures { out.new ≡ put out.old at (bytes_of slice.now (range_at table.now entry)) }
{
    let start = read64(table, entry) as usize;
    let size = read64(table, entry + 8) as usize;
    write_part(out, at, slice, start, size);
}

// Puts the header of payload j at `at`. The index goes in as a number of 32 bits, so that the reserved bytes behind it
// are 0.
#[tactic(auto, using(crate::proofs::Payloads::size_least, crate::proofs::Payloads::size_more))]
fn put_payload_header(lending: &Lending, j: usize, at: usize, out: &mut [u8])
    requires { PayloadReady (given lending.now) j at (length out.old) }
    ensures { out.new ≡ put out.old at
        (payload_header_bytes ((contents_of (given lending.now)).payload j)) }
{
    let table = lending.payload_table;
    let entry = PAYLOAD_ENTRY * j;
    let version = read32(table, entry);
    let image = read64(table, entry + IMAGE_AT + 8);
    let code = read64(table, entry + VENDOR_CODE_AT + 8);
    let index = u32::from(table[entry + IMAGE_INDEX_AT]);
    write32(out, at, version);
    write_guid(out, at + 4, table, entry + TYPE_GUID_AT);
    write_words(out, at + 20, &[index, image as u32, code as u32]);
    if version != 1 {
        write64(out, at + 32, read64(table, entry + INSTANCE_AT));
    }
}

// Puts payload j at `at`: header, image, vendor code.
fn put_payload(lending: &Lending, j: usize, at: usize, out: &mut [u8])
    requires { PayloadReady (given lending.now) j at (length out.old) }
    ensures { out.new ≡ put out.old at (payload_bytes ((contents_of (given lending.now)).payload j)) }
{
    let table = lending.payload_table;
    let entry = PAYLOAD_ENTRY * j;
    put_payload_header(lending, j, at, out);
    let image_at = at + header_length(read32(table, entry));
    put_part(lending.images, table, entry + IMAGE_AT, image_at, out);
    let code_at = image_at + read64(table, entry + IMAGE_AT + 8) as usize;
    put_part(lending.codes, table, entry + VENDOR_CODE_AT, code_at, out);
}

// Puts item k at `at`.
fn put_item(lending: &Lending, k: usize, at: usize, out: &mut [u8])
    requires { ItemReady (given lending.now) k at (length out.old) }
    ensures { out.new ≡ put out.old at (item_bytes (contents_of (given lending.now)) k) }
{
    let first = lending.drivers_in();
    if k < first {
        let table = lending.driver_table;
        put_part(lending.drivers, table, DRIVER_ENTRY * k, at, out);
    } else {
        put_payload(lending, k - first, at, out);
    }
}

// Puts all items behind the list of offsets.
fn put_items(lending: &Lending, out: &mut [u8])
    requires { Packable (given lending.now) (length out.old) }
    ensures { out.new ≡ put out.old (36 + 8 * items_of (contents_of (given lending.now)))
        (joined (items_of (contents_of (given lending.now))) (item_bytes (contents_of (given lending.now)))) }
{
    let items = lending.items();
    let mut at = FRONT + 8 * items;
    for k in 0..items {
        put_item(lending, k, at, out);
        at += item_size(lending, k);
    }
}

// Puts the whole capsule, whose size is given, at the front of `out`.
pub fn put_capsule(lending: &Lending, size: usize, out: &mut [u8])
    requires { (size ≡ capsule_size (given lending.now)) × Packable (given lending.now) (length out.old) }
    ensures { out.new ≡ put out.old 0 (capsule_bytes (contents_of (given lending.now))) }
{
    let drivers = lending.drivers_in() as u16;
    let payloads = lending.payloads_in() as u16;
    put_front(lending.flags, size as u32, drivers, payloads, out);
    put_offsets(lending, out);
    put_items(lending, out);
}
