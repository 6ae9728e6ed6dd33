// The rules of soundness on the words and type GUIDs of a record's image entries (R13, R15, R16). The counts and the
// length have been tested (`Counted`) before anything here reads an entry.
#![tactic(auto)]

ghost use Rattle.std.specs.Prelude.{◌≡◌, not, ◌+◌, ◌*◌, ◌≤◌, ◌<◌, length};
ghost use Rattle.fields.specs.Guid.{same, guid_every};
ghost use Rattle.record_layout.specs.Every.{below, distinct};
ghost use Rattle.record_layout.specs.Rules.{reserved_rule, accepted_rule, type_guids_rule};
ghost use Rattle.record_layout.specs.Sized.{bank_words};

use fields::{read16, read32, same_guid};
use record_layout::{
    ACCEPTED_FROM, Counted, HEADER, RESERVED_FROM, RESERVED8_AT, RESERVED16_AT, RESERVED32_AT,
    bank_word, entry_size,
};

// Whether, in each bank of image i, the word at `from` in the bank's entry is at most `limit`. A loop: `all` within the
// `all` of `all_words` takes five instructions more for each word.
fn bank_words(c: Counted, i: usize, from: usize, limit: u32) -> bool
    requires { (i < c.images) × (from ≤ 20) }
    ensures { result ≡ bank_words c.entry.bytes.now c.entry.banks from limit i }
{
    for b in 0..c.banks {
        if limit < bank_word(c.bytes, c.banks, i, b, from) {
            return false;
        }
    }
    true
}

// The same for every image.
fn all_words(c: Counted, from: usize, limit: u32) -> bool
    requires { from ≤ 20 }
    ensures { result ≡ below c.entry.images (bank_words c.entry.bytes.now c.entry.banks from limit) }
{
    (0..c.images).all(|i| bank_words(c, i, from, limit))
}

// R13: reserved fields are 0.
#[tactic(auto, using(crate::proofs::Words::reserved_words), unfolding(record_layout::specs::Rules::reserved_rule))]
pub fn reserved_rule(c: Counted) -> bool
    ensures { result ≡ reserved_rule c.entry.bytes.now }
{
    read16(c.bytes, RESERVED16_AT) == 0
        && read32(c.bytes, RESERVED32_AT) == 0
        && c.bytes[RESERVED8_AT] == 0
        && all_words(c, RESERVED_FROM, 0)
}

// R15: accepted fields are 0 or 1.
#[tactic(auto, using(crate::proofs::Words::accepted_words), unfolding(record_layout::specs::Rules::accepted_rule))]
pub fn accepted_rule(c: Counted) -> bool
    ensures { result ≡ accepted_rule c.entry.bytes.now }
{
    all_words(c, ACCEPTED_FROM, 1)
}

// Whether GUID i of those that stand `step` bytes apart from `first` on differs from those before.
fn guid_differs(s: &[u8], first: usize, step: usize, i: usize) -> bool
    requires { first + i * step + 16 ≤ length s.now }
    ensures { result ≡ below i (λ j. not (same (guid_every step first s.now j) (guid_every step first s.now i))) }
{
    let at = first + i * step;
    (0..i).all(|j| !same_guid(s, first + j * step, s, at))
}

// Whether n GUIDs that stand `step` bytes apart, the first at `first`, are all different. It serves directory_reader.
pub fn guids_differ(s: &[u8], first: usize, step: usize, n: usize) -> bool
    requires { (16 ≤ step) × (first + n * step ≤ length s.now) }
    ensures { result ≡ distinct n (guid_every step first s.now) }
{
    (0..n).all(|i| guid_differs(s, first, step, i))
}

// R16: type GUIDs are all different.
#[tactic(auto, unfolding(record_layout::specs::Rules::type_guids_rule))]
pub fn type_guids_rule(c: Counted) -> bool
    ensures { result ≡ type_guids_rule c.entry.bytes.now }
{
    guids_differ(c.bytes, HEADER, entry_size(c.banks), c.images)
}
