// The record's layout (R1 to R3): the record in a copy, alone or in an area, its fields by name, where an image's entry
// stands in it, and its accepted word in a bank. A record is a slice of the area's own bytes; nothing is copied. The
// rules of soundness are defined here, and tested in the crates above.
#![tactic(auto)]

ghost use Rattle.std.specs.Prelude.{◌≡◌, ◌+◌, ◌≤◌, ◌<◌, length};
ghost use Rattle.fields.specs.Number.{le};
ghost use Rattle.record_layout.specs.Layout.{area_size, copy_size, copy_at};
ghost use Rattle.record_layout.specs.Layout.{header_size, bank_limit, image_limit, record_limit, state_at};
ghost use Rattle.record_layout.specs.Layout.{version, size, active, previous, state, bank_count, image_count, record_of};
ghost use Rattle.record_layout.specs.Layout.{entry_size, entry_at, bank_entry_at, accepted};
ghost use Rattle.record_layout.specs.Sized.{Sized};

mod counted;

pub use counted::Counted;
use fields::{read16, read32};

// The lengths of an area, of a copy and of a record's header.
pub const AREA: usize = 16384;

pub const COPY: usize = 8192;

pub const HEADER: usize = 40;

// Where the fields of the header stand, the reserved ones by their width.
pub const CRC_AT: usize = 0;

pub const VERSION_AT: usize = 4;

pub const ACTIVE_AT: usize = 8;

pub const PREVIOUS_AT: usize = 12;

pub const SIZE_AT: usize = 16;

pub const DESCRIPTOR_OFFSET_AT: usize = 20;

pub const RESERVED16_AT: usize = 22;

pub const STATES_AT: usize = 24;

pub const RESERVED32_AT: usize = 28;

pub const BANK_COUNT_AT: usize = 32;

pub const RESERVED8_AT: usize = 33;

pub const IMAGE_COUNT_AT: usize = 34;

pub const IMAGE_ENTRY_SIZE_AT: usize = 36;

pub const BANK_ENTRY_SIZE_AT: usize = 38;

// The limits of the two counts (R7, R8).
pub const BANK_LIMIT: usize = 4;

pub const IMAGE_LIMIT: usize = 32;

// In an image's entry, where its banks' entries start and how long each is; in a bank's entry, where two of its words
// stand.
pub const BANKS_FROM: usize = 32;

pub const BANK_ENTRY: usize = 24;

pub const ACCEPTED_FROM: usize = 16;

pub const RESERVED_FROM: usize = 20;

// The three bank states (R17).
pub const INVALID: u8 = 255;

pub const VALID: u8 = 254;

pub const ACCEPTED: u8 = 252;

// The record in a copy: as many bytes as its size says, and the header in any case.
pub fn record_in(c: &[u8]) -> &[u8]
    requires { header_size ≤ length c.now }
    ensures { result.now ≡ record_of c.now }
{
    &c[..(size(c) as usize).max(HEADER).min(c.len())]
}

// The record in the copy that stands at base in an area.
#[tactic(auto, using(crate::proofs::Copies::copy_is))]
pub fn record_at(area: &[u8], base: usize) -> &[u8]
    requires { (length area.now ≡ area_size) × (base ≤ copy_size) }
    ensures { result.now ≡ record_of (copy_at base area.now) }
{
    record_in(&area[base..base + COPY])
}

// The header's fields by name: each function names one field, so that who asks for one of these names no offset.
pub fn version(r: &[u8]) -> u32
    requires { header_size ≤ length r.now }
    ensures { result ≡ version r.now }
{
    read32(r, VERSION_AT)
}

pub fn size(r: &[u8]) -> u32
    requires { header_size ≤ length r.now }
    ensures { result ≡ size r.now }
{
    read32(r, SIZE_AT)
}

pub fn active(r: &[u8]) -> u32
    requires { header_size ≤ length r.now }
    ensures { result ≡ active r.now }
{
    read32(r, ACTIVE_AT)
}

pub fn previous(r: &[u8]) -> u32
    requires { header_size ≤ length r.now }
    ensures { result ≡ previous r.now }
{
    read32(r, PREVIOUS_AT)
}

pub fn bank_count(r: &[u8]) -> usize
    requires { header_size ≤ length r.now }
    ensures { result ≡ bank_count r.now }
{
    usize::from(r[BANK_COUNT_AT])
}

pub fn image_count(r: &[u8]) -> usize
    requires { header_size ≤ length r.now }
    ensures { result ≡ image_count r.now }
{
    usize::from(read16(r, IMAGE_COUNT_AT))
}

// The state of bank b, of a record that may have fewer banks.
pub fn state(r: &[u8], b: usize) -> u8
    requires { (header_size ≤ length r.now) × (b < bank_limit) }
    ensures { result ≡ state r.now b }
{
    r[STATES_AT + b]
}

// The word of the four bank states.
pub fn states(r: &[u8]) -> u32
    requires { header_size ≤ length r.now }
    ensures { result ≡ le 4 r.now (state_at 0) }
{
    read32(r, STATES_AT)
}

// How long an image's entry is for that many banks.
pub fn entry_size(banks: usize) -> usize
    requires { banks < 256 }
    ensures { result ≡ entry_size banks }
{
    BANKS_FROM + BANK_ENTRY * banks
}

// The offset of the entry of image i.
pub fn entry_at(banks: usize, i: usize) -> usize
    requires { (banks ≤ bank_limit) × (i ≤ image_limit) }
    ensures { (result ≡ entry_at banks i) × (result ≤ record_limit) }
{
    HEADER + i * entry_size(banks)
}

// The word at `from` in the entry of bank b, in that of image i.
#[tactic(auto, using(crate::proofs::Sizes::bank_in))]
pub fn bank_word(r: &[u8], banks: usize, i: usize, b: usize, from: usize) -> u32
    requires { Sized r.now banks (image_count r.now) × (i < image_count r.now) × (b < banks) × (from ≤ 20) }
    ensures { result ≡ le 4 r.now (bank_entry_at banks i b + from) }
{
    read32(r, entry_at(banks, i) + BANKS_FROM + BANK_ENTRY * b + from)
}

// The accepted word of image i in bank b.
pub fn accepted_word(r: &[u8], banks: usize, i: usize, b: usize) -> u32
    requires { Sized r.now banks (image_count r.now) × (i < image_count r.now) × (b < banks) }
    ensures { result ≡ accepted r.now i b }
{
    bank_word(r, banks, i, b, ACCEPTED_FROM)
}
