// Whether a copy is sound (R5): R6 to R19, in their order.
#![tactic(auto)]

ghost use Rattle.std.specs.Prelude.{◌≡◌, ◌≤◌, length};
ghost use Rattle.record_layout.specs.Layout.{header_size};
ghost use Rattle.record_layout.specs.Rules.{crc_rule, sound, sound_copy};
ghost use Rattle.record_layout.specs.Sized.{first_six, last_eight};

use fields::read32;
use record_crc::crc32;
use record_entry_rules::{accepted_rule, reserved_rule, type_guids_rule};
use record_header_rules::{
    bank_count_rule, bank_entry_size_rule, banks_named_rule, descriptor_offset_rule,
    image_count_rule, image_entry_size_rule, size_rule, version_rule,
};
use record_layout::{CRC_AT, Counted, VERSION_AT, bank_count, image_count, record_in};
use record_state_rules::{banks_rule, states_rule};

// R19: the CRC agrees.
#[tactic(auto, unfolding(record_layout::specs::Rules::crc_rule))]
fn crc_rule(r: &[u8]) -> bool
    requires { header_size ≤ length r.now }
    ensures { result ≡ crc_rule r.now }
{
    read32(r, CRC_AT) == crc32(&r[VERSION_AT..])
}

// R6 to R11, on which the record's length rests.
#[tactic(auto, unfolding(record_layout::specs::Sized::first_six))]
fn first_six(r: &[u8]) -> bool
    requires { header_size ≤ length r.now }
    ensures { result ≡ first_six r.now }
{
    version_rule(r)
        && bank_count_rule(r)
        && image_count_rule(r)
        && bank_entry_size_rule(r)
        && image_entry_size_rule(r)
        && size_rule(r)
}

// R12 to R19.
#[tactic(auto, using(record_layout::proofs::Sound::named_of), unfolding(record_layout::specs::Sized::last_eight))]
fn last_eight(c: Counted) -> bool
    ensures { result ≡ last_eight c.entry.bytes.now }
{
    descriptor_offset_rule(c.bytes)
        && reserved_rule(c)
        && banks_named_rule(c.bytes)
        && accepted_rule(c)
        && type_guids_rule(c)
        && states_rule(c)
        && banks_rule(c)
        && crc_rule(c.bytes)
}

// Whether a record is sound.
#[tactic(auto, using(record_layout::proofs::Sound::sized_of))]
pub fn sound_record(r: &[u8]) -> bool
    requires { header_size ≤ length r.now }
    ensures { result ≡ sound r.now }
{
    first_six(r)
        && last_eight(Counted {
            bytes: r,
            banks: bank_count(r),
            images: image_count(r),
        })
}

// Whether a copy is sound: its record is.
#[tactic(auto, using(record_layout::proofs::Copies::record_long), unfolding(record_layout::specs::Rules::sound_copy))]
pub fn sound_copy(c: &[u8]) -> bool
    requires { header_size ≤ length c.now }
    ensures { result ≡ sound_copy c.now }
{
    sound_record(record_in(c))
}
