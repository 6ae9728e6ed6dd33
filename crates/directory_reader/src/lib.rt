// The reader of an image directory (I9, I10): whether it is taken, or its refusal, 43 to 46; and what its header shows.
// Every function that the product offers here checks the whole directory first and has no condition. `refusal` says
// which refusal it was; the others then answer 0. What an entry of the directory shows is handed out by crate
// directory_values.
#![tactic(auto)]

ghost use Rattle.std.specs.Prelude.{◌≡◌, ◌+◌, ◌≤◌, ◌<◌, length};
ghost use Rattle.fields.specs.Number.{le};
ghost use Rattle.refusal_order.specs.Decide.{decide, decision_of};
ghost use Rattle.record_layout.specs.Layout.{image_limit};
ghost use Rattle.directory_layout.specs.Layout.{directory_header_size, directory_size, images_in};
ghost use Rattle.directory_reader.specs.Reader.{header_right, entry_right, entries_right, reader_tests};
ghost use Rattle.directory_reader.specs.Reader.{if_taken, shown_images, shown_correct_boot};

use directory_layout::{
    ACCEPTED_FROM, ARRAY_OFFSET_AT, CORRECT_BOOT_AT, ENTRY, ENTRY_SIZE_AT, HEADER, IMAGES_AT,
    PERMISSIONS_FROM, RESERVED_AT, RESERVED_FROM, VERSION, VERSION_AT, permissions_right,
};
use fields::read32;
use record_entry_rules::guids_differ;
use record_layout::IMAGE_LIMIT;
use refusals::Refusal;

// 44: the fields of the header.
#[tactic(auto, unfolding(crate::specs::Reader::header_right))]
fn header_right(d: &[u8]) -> bool
    requires { directory_header_size ≤ length d.now }
    ensures { result ≡ header_right d.now }
{
    let images = read32(d, IMAGES_AT);
    read32(d, VERSION_AT) == VERSION
        && read32(d, ARRAY_OFFSET_AT) == HEADER as u32
        && 1 <= images
        && images <= IMAGE_LIMIT as u32
        && read32(d, CORRECT_BOOT_AT) <= 1
        && read32(d, ENTRY_SIZE_AT) == ENTRY as u32
        && read32(d, RESERVED_AT) == 0
}

// Of entry k: permissions, accepted and reserved.
#[tactic(auto, unfolding(crate::specs::Reader::entry_right))]
fn entry_right(d: &[u8], k: usize) -> bool
    requires { (k < images_in d.now) × (images_in d.now ≤ image_limit) × (length d.now ≡ directory_size (images_in d.now)) }
    ensures { result ≡ entry_right d.now k }
{
    let at = HEADER + k * ENTRY;
    permissions_right(read32(d, at + PERMISSIONS_FROM))
        && read32(d, at + ACCEPTED_FROM) <= 1
        && read32(d, at + RESERVED_FROM) == 0
}

// 46: every entry, and the type GUIDs.
#[tactic(auto, unfolding(crate::specs::Reader::entries_right))]
fn entries_right(d: &[u8], images: usize) -> bool
    requires { (images ≡ images_in d.now) × (images ≤ image_limit) × (length d.now ≡ directory_size images) }
    ensures { result ≡ entries_right d.now }
{
    (0..images).all(|k| entry_right(d, k)) && guids_differ(d, HEADER, ENTRY, images)
}

// The sister of all that is shown: the refusal, 43 to 46, or none.
#[tactic(auto, unfolding(crate::specs::Reader::reader_tests, refusal_order::specs::Decide::decide), using(crate::proofs::Taken::few_told))]
pub fn refusal(d: &[u8]) -> Result<(), Refusal>
    ensures { decision_of result ≡ decide (reader_tests d.now) }
{
    if d.len() < HEADER {
        return Err(Refusal::DirectoryShort);
    }
    if !header_right(d) {
        return Err(Refusal::DirectoryHeader);
    }
    let images = read32(d, IMAGES_AT) as usize;
    if d.len() != HEADER + images * ENTRY {
        return Err(Refusal::DirectoryLength);
    }
    if !entries_right(d, images) {
        return Err(Refusal::DirectoryEntries);
    }
    Ok(())
}

// The word of the header at `at`; 0 with a refusal.
fn shown(d: &[u8], at: usize) -> u32
    requires { at + 4 ≤ directory_header_size }
    ensures { result ≡ if_taken (decide (reader_tests d.now)) (le 4 d.now at) 0 }
{
    match refusal(d) {
        Ok(()) => read32(d, at),
        Err(_) => 0,
    }
}

// How many images a directory tells of; 0 with a refusal.
#[tactic(auto, unfolding(crate::specs::Reader::shown_images))]
pub fn image_count(d: &[u8]) -> u32
    ensures { result ≡ shown_images d.now }
{
    shown(d, IMAGES_AT)
}

// Its correct_boot: 1 where the platform booted with the active bank, else 0. With a refusal it is 0 too: ask `refusal`
// first.
#[tactic(auto, unfolding(crate::specs::Reader::shown_correct_boot))]
pub fn correct_boot(d: &[u8]) -> u32
    ensures { result ≡ shown_correct_boot d.now }
{
    shown(d, CORRECT_BOOT_AT)
}
