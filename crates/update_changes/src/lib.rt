// What is asked of a record to tell what a call alters in it (S4 to S16): the image with a type GUID, the update bank,
// and what the record says once one of its fields is anew. A record is a slice of the area's own bytes; nothing is
// copied.
#![tactic(auto)]

ghost use Rattle.std.specs.Prelude.{◌≡◌, true, ◌<◌, eqb, length, MatchOption};
ghost use Rattle.fields.specs.Number.{le};
ghost use Rattle.record_layout.specs.Layout.{bank_limit, accepted, active, previous, state, state_at, bank_count, image_count};
ghost use Rattle.record_layout.specs.Rules.{accepted_bank, all_accepted, sound};
ghost use Rattle.record_alterations.specs.Fields.{set_state};
ghost use Rattle.update_changes.specs.NewRecord.{update_bank_of, image_with, marked};

use fields::same_guid;
use record_layout::{
    ACCEPTED, accepted_word, active, bank_count, entry_at, image_count, previous, state,
};

// What a call alters in the record: nothing; or what the call's rule says, by image and not by GUID. The record that
// each makes is `changed_by` of specs/Changed.antt.
#[derive(Clone, Copy, Debug, PartialEq, Eq)]
pub enum Change {
    Nothing,
    Begin,
    Commit { image: usize, request: u32 },
    End,
    Accept { image: usize },
    Exchange,
}

// The image with that type GUID, if an entry has it.
pub fn image_of(r: &[u8], guid: &[u8]) -> Option<usize>
    requires { (sound r.now ≡ true) × (length guid.now ≡ 16) }
    ensures { MatchOption result (image_with guid.now r.now ≡ image_count r.now)
        (λ i. (i ≡ image_with guid.now r.now) × (i < image_count r.now)) }
{
    let banks = bank_count(r);
    for i in 0..image_count(r) {
        if same_guid(r, entry_at(banks, i), guid, 0) {
            return Some(i);
        }
    }
    None
}

// Whether image k of the active bank is accepted once image i is.
fn accepted_after(r: &[u8], i: usize, k: usize) -> bool
    requires { (sound r.now ≡ true) × (i < image_count r.now) × (k < image_count r.now) }
    ensures { result ≡ eqb (accepted (marked i r.now) k (active r.now)) 1 }
{
    k == i || accepted_word(r, bank_count(r), k, active(r) as usize) == 1
}

// Whether every image of the active bank is accepted once image i is.
pub fn all_accepted_after(r: &[u8], i: usize) -> bool
    requires { (sound r.now ≡ true) × (i < image_count r.now) }
    ensures { result ≡ all_accepted (marked i r.now) (active r.now) }
{
    (0..image_count(r)).all(|k| accepted_after(r, i, k))
}

// The state of bank k once that of bank b is s.
fn state_with(r: &[u8], b: usize, s: u8, k: usize) -> u8
    requires { (sound r.now ≡ true) × (b < bank_count r.now) × (k < bank_limit) }
    ensures { result ≡ state (set_state b s r.now) k }
{
    if k == b { s } else { state(r, k) }
}

// The word of the four bank states once that of bank b is s.
pub fn states_with(r: &[u8], b: usize, s: u8) -> u32
    requires { (sound r.now ≡ true) × (b < bank_count r.now) }
    ensures { result ≡ le 4 (set_state b s r.now) (state_at 0) }
{
    u32::from_le_bytes([
        state_with(r, b, s, 0),
        state_with(r, b, s, 1),
        state_with(r, b, s, 2),
        state_with(r, b, s, 3),
    ])
}

// The update bank (S4).
pub fn update_bank(r: &[u8]) -> usize
    requires { sound r.now ≡ true }
    ensures { (result ≡ update_bank_of r.now) × (result < bank_count r.now) }
{
    (active(r) as usize + 1) % bank_count(r)
}

// Whether the previous bank is accepted.
pub fn previous_accepted(r: &[u8]) -> bool
    requires { sound r.now ≡ true }
    ensures { result ≡ eqb (state r.now (previous r.now)) accepted_bank }
{
    state(r, previous(r) as usize) == ACCEPTED
}
