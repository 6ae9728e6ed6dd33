// What a directory shows of an entry: its type GUID, as a part of the lent slice, and its five numbers (I10). The two
// functions that the product offers check the whole directory first and have no condition: with a refusal, and past the
// image count, they answer the empty part at the slice's start, or zeros; `directory_reader::refusal` says which refusal
// it was, `directory_reader::image_count` how many entries there are.
#![tactic(auto)]

ghost use Rattle.std.specs.Prelude.{◌≡◌, ◌+◌, ◌≤◌, ◌<◌, length};
ghost use Rattle.std.specs.Option.{MatchOption};
ghost use Rattle.fields.specs.Part.{IsPart, range_of};
ghost use Rattle.refusal_order.specs.Decide.{decide, passed};
ghost use Rattle.directory_layout.specs.Layout.{directory_entry_size, images_in, entry_start};
ghost use Rattle.directory_reader.specs.Reader.{reader_tests};
ghost use Rattle.directory_values.specs.Values.{guid_range, shown_guid};
ghost use Rattle.directory_values.specs.Values.{numbers_of, numbers_or_zeros, shown_numbers};

use directory_layout::{
    ACCEPTED_FROM, ENTRY, GUID, HEADER, IMAGES_AT, LOWEST_ACCEPTED_VERSION_FROM, MAXIMUM_SIZE_FROM,
    PERMISSIONS_FROM, VERSION_FROM,
};
use directory_reader::refusal;
use fields::{Span, part_of, read32};

// The five numbers of an entry; the second and third are its maximum size and lowest accepted version.
#[derive(Clone, Copy, Debug, Default, PartialEq, Eq)]
pub struct Numbers {
    pub permissions: u32,
    pub maximum: u32,
    pub lowest: u32,
    pub version: u32,
    pub accepted: u32,
}

// Where entry k of a directory that is taken starts; none past the count.
#[tactic(auto, using(directory_reader::proofs::Taken::taken, directory_reader::proofs::Taken::header_in))]
fn entry_of(d: &[u8], k: usize) -> Option<usize>
    requires { decide (reader_tests d.now) ≡ passed }
    ensures { MatchOption result (images_in d.now ≤ k) (λ at. (k < images_in d.now) × (at ≡ entry_start k)
        × (at + directory_entry_size ≤ length d.now)) }
{
    if k < read32(d, IMAGES_AT) as usize {
        Some(HEADER + k * ENTRY)
    } else {
        None
    }
}

// Where the type GUID of entry k lies in a directory that is taken. No function of the product's: it serves
// c_directory_values too.
#[tactic(auto, unfolding(crate::specs::Values::guid_range))]
pub fn guid_span(d: &[u8], k: usize) -> Span
    requires { decide (reader_tests d.now) ≡ passed }
    ensures { range_of result ≡ guid_range d.now k }
{
    match entry_of(d, k) {
        Some(start) => Span {
            start,
            end: start + GUID,
        },
        None => Span { start: 0, end: 0 },
    }
}

// The type GUID of entry k.
#[tactic(auto, unfolding(crate::specs::Values::shown_guid), using(crate::proofs::Lies::guid_lies))]
pub fn type_guid(d: &[u8], k: usize) -> &[u8]
    ensures { IsPart d.entry result (shown_guid d.now k) }
{
    if refusal(d).is_err() {
        return part_of(d, 0, 0);
    }
    let span = guid_span(d, k);
    part_of(d, span.start, span.end)
}

// The numbers of entry k of a directory that is taken, zeros past the count. No function of the product's: it serves
// c_directory_values too.
#[tactic(auto, unfolding(crate::specs::Values::numbers_or_zeros))]
pub fn numbers_or_zeros(d: &[u8], k: usize) -> Numbers
    requires { decide (reader_tests d.now) ≡ passed }
    ensures { numbers_of result ≡ numbers_or_zeros d.now k }
{
    match entry_of(d, k) {
        Some(at) => Numbers {
            permissions: read32(d, at + PERMISSIONS_FROM),
            maximum: read32(d, at + MAXIMUM_SIZE_FROM),
            lowest: read32(d, at + LOWEST_ACCEPTED_VERSION_FROM),
            version: read32(d, at + VERSION_FROM),
            accepted: read32(d, at + ACCEPTED_FROM),
        },
        None => Numbers::default(),
    }
}

// The five numbers of entry k.
#[tactic(auto, unfolding(crate::specs::Values::shown_numbers))]
pub fn entry_numbers(d: &[u8], k: usize) -> Numbers
    ensures { numbers_of result ≡ shown_numbers d.now k }
{
    match refusal(d) {
        Ok(()) => numbers_or_zeros(d, k),
        Err(_) => Numbers::default(),
    }
}
