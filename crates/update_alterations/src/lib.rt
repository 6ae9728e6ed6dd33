// What each change alters in the record (S6, S8, S10, S13, S16), as words.
#![tactic(auto)]

ghost use Rattle.std.specs.Prelude.{◌≡◌, true, cond, ◌<◌, eqb};
ghost use Rattle.fields.specs.Number.{le};
ghost use Rattle.record_layout.specs.Layout.{state_at, active, bank_count, image_count};
ghost use Rattle.record_layout.specs.Rules.{accepted_bank, valid, all_accepted, sound};
ghost use Rattle.record_alterations.specs.Fields.{set_state};
ghost use Rattle.update_changes.specs.NewRecord.{begun_record, committed_record, ended_record, marked, accepted_record, exchanged_record};
ghost use Rattle.update_changes.specs.Changed.{changed_by, Names};
ghost use Rattle.update_alterations.specs.Makes.{Makes, with_full};

use record_alterations::{Alteration, unaltered};
use record_layout::{ACCEPTED, INVALID, VALID, active, bank_count, image_count, states};
use record_state_rules::all_accepted;
use update_changes::{Change, all_accepted_after, states_with, update_bank};

// Begin: the update bank 255 with all images unaccepted (S6).
fn begin_alteration(r: &[u8]) -> Alteration
    requires { sound r.now ≡ true }
    ensures { Makes result r.now (begun_record r.now) }
{
    let bank = update_bank(r);
    Alteration {
        states: states_with(r, bank, INVALID),
        bank,
        count: image_count(r),
        ..unaltered(r)
    }
}

// The accepted word for a request (S8).
fn flag_for(request: u32) -> u32
    ensures { result ≡ cond (eqb request 0) 1 0 }
{
    u32::from(request == 0)
}

// Commit of image i, in the update bank (S8).
fn commit_alteration(r: &[u8], i: usize, request: u32) -> Alteration
    requires { (sound r.now ≡ true) × (i < image_count r.now) }
    ensures { Makes result r.now (committed_record i request r.now) }
{
    Alteration {
        bank: update_bank(r),
        first: i,
        count: 1,
        flag: flag_for(request),
        ..unaltered(r)
    }
}

// The state that End gives bank b (S10).
fn end_state(r: &[u8], b: usize) -> u8
    requires { (sound r.now ≡ true) × (b < bank_count r.now) }
    ensures { result ≡ cond (all_accepted r.now b) accepted_bank valid }
{
    if all_accepted(r, bank_count(r), image_count(r), b) {
        ACCEPTED
    } else {
        VALID
    }
}

// End: previous takes active, active takes the update bank (S10).
fn end_alteration(r: &[u8]) -> Alteration
    requires { sound r.now ≡ true }
    ensures { Makes result r.now (ended_record r.now) }
{
    let bank = update_bank(r);
    let old = unaltered(r);
    Alteration {
        active: bank as u32,
        previous: old.active,
        states: states_with(r, bank, end_state(r, bank)),
        ..old
    }
}

// The bank states once image i is accepted in the active bank (S13).
fn accept_states(r: &[u8], i: usize) -> u32
    requires { (sound r.now ≡ true) × (i < image_count r.now) }
    ensures { result ≡ le 4 (with_full i r.now) (state_at 0) }
{
    if all_accepted_after(r, i) {
        states_with(r, active(r) as usize, ACCEPTED)
    } else {
        states(r)
    }
}

// Accept of image i, in the active bank (S13).
fn accept_alteration(r: &[u8], i: usize) -> Alteration
    requires { (sound r.now ≡ true) × (i < image_count r.now) }
    ensures { Makes result r.now (accepted_record i r.now) }
{
    let x = unaltered(r);
    Alteration {
        states: accept_states(r, i),
        bank: x.active as usize,
        first: i,
        count: 1,
        flag: 1,
        ..x
    }
}

// Select previous: active and previous exchanged (S16).
fn exchange_alteration(r: &[u8]) -> Alteration
    requires { sound r.now ≡ true }
    ensures { Makes result r.now (exchanged_record r.now) }
{
    let x = unaltered(r);
    Alteration {
        active: x.previous,
        previous: x.active,
        ..x
    }
}

// The words that a change alters.
pub fn alteration_for(r: &[u8], change: Change) -> Alteration
    requires { (sound r.now ≡ true) × Names change r.now }
    ensures { Makes result r.now (changed_by change r.now) }
{
    match change {
        Change::Nothing => unaltered(r),
        Change::Begin => begin_alteration(r),
        Change::Commit { image, request } => commit_alteration(r, image, request),
        Change::End => end_alteration(r),
        Change::Accept { image } => accept_alteration(r, image),
        Change::Exchange => exchange_alteration(r),
    }
}
