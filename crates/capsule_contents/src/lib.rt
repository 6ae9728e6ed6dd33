// What is lent to the packer of capsules: slices, and tables of drivers and payloads, entry by entry (C26, C27). These
// functions serve the packer, which counts the entries first; those that read an entry ask that it lies in its table.
#![tactic(auto)]

ghost use Rattle.std.specs.Prelude.{◌≡◌, ◌+◌, ◌*◌, ◌≤◌, ◌<◌, leb, length};
ghost use Rattle.capsule_contents.specs.Contents.{items_of};
ghost use Rattle.capsule_contents.specs.Lent.{start_at, length_at, driver_at, payload_at, drivers_in, payloads_in, contents_of};
ghost use Rattle.capsule_contents.specs.Given.{given};
ghost use Rattle.capsule_contents.specs.Sizes.{cap, payload_size, item_size};

use capsule_payloads::header_length;
use fields::{read32, read64};

// The lengths of the tables' entries, and where a payload's entry, behind its version, tells what (C27).
pub const DRIVER_ENTRY: usize = 16;

pub const PAYLOAD_ENTRY: usize = 64;

pub const TYPE_GUID_AT: usize = 4;

pub const IMAGE_INDEX_AT: usize = 20;

pub const INSTANCE_AT: usize = 24;

pub const IMAGE_AT: usize = 32;

pub const VENDOR_CODE_AT: usize = 48;

// The least size that CapsuleImageSize can't tell.
pub const SIZE_CAP: usize = 4294967296;

// All that is lent for one capsule: its flags; the slices that hold drivers, images and vendor codes, each with any
// bytes besides; a table of the drivers and one of the payloads.
#[derive(Clone, Copy)]
pub struct Lending<'a> {
    pub flags: u32,
    pub drivers: &'a [u8],
    pub driver_table: &'a [u8],
    pub images: &'a [u8],
    pub codes: &'a [u8],
    pub payload_table: &'a [u8],
}

impl<'a> Lending<'a> {
    // How many drivers the table has. A rest that is shorter than an entry is none.
    pub fn drivers_in(&self) -> usize
        ensures { result ≡ drivers_in self.now.driver_table.now }
    {
        self.driver_table.len() / DRIVER_ENTRY
    }

    // How many payloads the table has.
    pub fn payloads_in(&self) -> usize
        ensures { result ≡ payloads_in self.now.payload_table.now }
    {
        self.payload_table.len() / PAYLOAD_ENTRY
    }

    // How many items the capsule has.
    pub fn items(&self) -> usize
        ensures { result ≡ items_of (contents_of (given self.now)) }
    {
        self.drivers_in() + self.payloads_in()
    }
}

// Whether the part that is told at `at` ends in a slice of `limit` bytes. The sum of start and length is not worked, so
// it can't wrap.
pub fn part_inside(table: &[u8], at: usize, limit: usize) -> bool
    requires { at + 16 ≤ length table.now }
    ensures { result ≡ leb (start_at table.now at + length_at table.now at) limit }
{
    let start = read64(table, at) as usize;
    let size = read64(table, at + 8) as usize;
    size <= limit && start <= limit - size
}

// A sum that stops at the cap.
#[tactic(auto, unfolding(crate::specs::Sizes::cap))]
pub fn add_capped(sum: usize, more: usize) -> usize
    ensures { result ≡ cap (sum + more) }
{
    sum.saturating_add(more).min(SIZE_CAP)
}

// How many bytes payload j of the table has as an item, or the cap.
pub fn payload_size(table: &[u8], j: usize) -> usize
    requires { j < payloads_in table.now }
    ensures { result ≡ cap (payload_size table.now j) }
{
    let at = PAYLOAD_ENTRY * j;
    let image = read64(table, at + IMAGE_AT + 8) as usize;
    let code = read64(table, at + VENDOR_CODE_AT + 8) as usize;
    add_capped(add_capped(header_length(read32(table, at)), image), code)
}

// How many bytes item k has, drivers first, or the cap.
#[tactic(auto, unfolding(crate::specs::Sizes::cap, crate::specs::Sizes::item_size))]
pub fn item_size(lending: &Lending, k: usize) -> usize
    requires { k < items_of (contents_of (given lending.now)) }
    ensures { result ≡ cap (item_size lending.now.driver_table.now lending.now.payload_table.now k) }
{
    let first = lending.drivers_in();
    if k < first {
        (read64(lending.driver_table, DRIVER_ENTRY * k + 8) as usize).min(SIZE_CAP)
    } else {
        payload_size(lending.payload_table, k - first)
    }
}
