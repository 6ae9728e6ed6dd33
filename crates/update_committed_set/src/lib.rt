// The set of committed images (S1): whether a Staging session's bank and set fit a record (N24), and how many images
// the set lacks (N27).
#![tactic(auto)]

ghost use Rattle.std.specs.Prelude.{◌≡◌, true, ◌<◌, ◌^◌};
ghost use Rattle.record_layout.specs.Layout.{image_count};
ghost use Rattle.record_layout.specs.Rules.{sound};
ghost use Rattle.update_committed_set.specs.Set.{set_bits, joined, missing, staged_fits};

use record_layout::{INVALID, image_count, state};
use update_changes::update_bank;

// How many bits a set has.
const SET_BITS: u32 = 32;

// Whether a Staging session is free of 24. The bank is looked up only where it is the update bank: a session may name
// any number.
pub fn staged(r: &[u8], bank: u32, set: u32) -> bool
    requires { sound r.now ≡ true }
    ensures { result ≡ staged_fits bank set r.now }
{
    // the last: no bit at or past the image count; so many zeros stand at the set's top that with the images they make
    // its width, or more
    bank as usize == update_bank(r)
        && state(r, bank as usize) == INVALID
        && SET_BITS <= image_count(r) as u32 + u32::leading_zeros(set)
}

// The set with image i too.
pub fn with_image(set: u32, i: usize) -> u32
    requires { i < set_bits }
    ensures { result ≡ joined i set }
{
    set | (1u32 << (i as u32))
}

// How many images are not in the set: the image count less its count of ones.
pub fn missing_images(r: &[u8], set: u32) -> u32
    requires { (sound r.now ≡ true) × (set < 2 ^ image_count r.now) }
    ensures { result ≡ missing set r.now }
{
    image_count(r) as u32 - u32::count_ones(set)
}
