// The two copies of the record in an area: which is read, the record in it, and whether they are equal (R20, R21).
#![tactic(auto)]

ghost use Rattle.std.specs.Prelude.{◌≡◌, true, ◌≤◌, length, Some};
ghost use Rattle.record_layout.specs.Layout.{area_size, copy_size, copy_at, copy0, record_of};
ghost use Rattle.record_layout.specs.Rules.{sound, sound_copy};
ghost use Rattle.record_copies.specs.Copies.{source_of, record_read, records_equal, sound_and_equal};
ghost use Rattle.record_copies.specs.declared.Source.TheVariants.{Copy0};

use record_layout::{COPY, record_at};
use record_soundness::sound_copy;

// A copy that may be read.
#[derive(Clone, Copy, Debug, PartialEq, Eq)]
pub enum Source {
    Copy0,
    Copy1,
}

// Whether the copy that stands at base is sound.
#[tactic(auto, using(record_layout::proofs::Copies::copy_is))]
pub fn sound_at(area: &[u8], base: usize) -> bool
    requires { (length area.now ≡ area_size) × (base ≤ copy_size) }
    ensures { result ≡ sound_copy (copy_at base area.now) }
{
    sound_copy(&area[base..base + COPY])
}

// The copy that is read: copy 0 if sound, else copy 1 if sound, else none.
#[tactic(auto, unfolding(crate::specs::Copies::source_of))]
pub fn read_source(area: &[u8]) -> Option<Source>
    requires { length area.now ≡ area_size }
    ensures { result ≡ source_of area.now }
{
    if sound_at(area, 0) {
        return Some(Source::Copy0);
    }
    if sound_at(area, COPY) {
        return Some(Source::Copy1);
    }
    None
}

// The record in the copy that is read: a part of the area.
pub fn read_record(area: &[u8], from: Source) -> &[u8]
    requires { (length area.now ≡ area_size) × (source_of area.now ≡ Some from) }
    ensures { (result.now ≡ record_read area.now) × (sound result.now ≡ true) }
{
    match from {
        Source::Copy0 => record_at(area, 0),
        Source::Copy1 => record_at(area, COPY),
    }
}

// The record that both copies hold, where they are sound and equal: a part of the area.
pub fn held_record(area: &[u8]) -> &[u8]
    requires { (length area.now ≡ area_size) × (sound_and_equal area.now ≡ true) }
    ensures { (result.now ≡ record_of (copy0 area.now)) × (sound result.now ≡ true) }
{
    record_at(area, 0)
}

// Whether the records in the two copies are the same, byte for byte. By their places: `==` of slices is std's, which
// uses more registers than C callers are told of (include/meanderpeg.h).
pub fn records_equal(area: &[u8]) -> bool
    requires { length area.now ≡ area_size }
    ensures { result ≡ records_equal area.now }
{
    let x = record_at(area, 0);
    let y = record_at(area, COPY);
    x.len() == y.len() && (0..x.len()).all(|i| x[i] == y[i])
}

// Whether copy 1 is sound too, and its record the same as that of copy 0, which is sound.
#[tactic(auto, unfolding(crate::specs::Copies::sound_and_equal))]
pub fn second_agrees(area: &[u8]) -> bool
    requires { (length area.now ≡ area_size) × (source_of area.now ≡ Some Copy0) }
    ensures { result ≡ sound_and_equal area.now }
{
    sound_at(area, COPY) && records_equal(area)
}
