// The values shown of a payload item: its type GUID, image index and hardware instance (C21). Every entry checks the
// whole capsule first and has no condition: a refused one answers 0 or zeros, and `capsule_items::refusal` says which
// refusal it was.
#![tactic(auto)]

ghost use Rattle.std.specs.Prelude.{◌≡◌, true, replicate, IfOk};
ghost use Rattle.capsule_payloads.specs.Payload.{payload_right, type_guid, image_index, hardware_instance};
ghost use Rattle.capsule_check.specs.Verdict.{verdict_of, item_verdict};
ghost use Rattle.capsule_check.specs.Item.{located};
ghost use Rattle.capsule_values.specs.Shown.{type_guid_of, image_index_of, hardware_instance_of};

use capsule_check::{Item, locate};
use refusals::Refusal;

// All that is shown of an item.
#[derive(Clone, Copy, Debug, Default, PartialEq, Eq)]
pub struct Values {
    pub guid: [u8; 16],
    pub index: u8,
    pub instance: u64,
}

// Version 1 has no hardware instance and shows 0.
#[tactic(auto, using(capsule_payloads::proofs::Payload::told), unfolding(capsule_payloads::specs::Payload::hardware_instance))]
fn instance_of(p: &[u8]) -> u64
    requires { payload_right p.now ≡ true }
    ensures { result ≡ hardware_instance p.now }
{
    if fields::read32(p, 0) == 1 {
        0
    } else {
        fields::read64(p, 32)
    }
}

// Those of a payload p.
#[tactic(auto, using(capsule_payloads::proofs::Payload::told))]
fn payload_values(p: &[u8]) -> Values
    requires { payload_right p.now ≡ true }
    ensures { (result.guid ≡ type_guid p.now) × (result.index ≡ image_index p.now)
        × (result.instance ≡ hardware_instance p.now) }
{
    let guid = fields::read_guid(p, 4);
    let index = p[20];
    let instance = instance_of(p);
    Values {
        guid,
        index,
        instance,
    }
}

// Those of a driver.
fn zeros() -> Values
    ensures { (result.guid ≡ replicate 16 0) × (result.index ≡ 0) × (result.instance ≡ 0) }
{
    Values {
        guid: [0; 16],
        index: 0,
        instance: 0,
    }
}

// Those of item k, or the refusal. It serves c_values too.
#[tactic(auto, using(capsule_check::proofs::Places::judged, capsule_check::proofs::Places::payload))]
pub fn values_of(s: &[u8], k: usize) -> Result<Values, Refusal>
    ensures judged { verdict_of result ≡ item_verdict s.now k }
    ensures shown { IfOk result (λ v. (v.guid ≡ type_guid_of s.now (located s.now k))
        × (v.index ≡ image_index_of s.now (located s.now k))
        × (v.instance ≡ hardware_instance_of s.now (located s.now k))) }
{
    Ok(match locate(s, k)? {
        Item::Driver { .. } => zeros(),
        Item::Payload { start, end } => payload_values(&s[start..end]),
    })
}

// The type GUID of payload item k.
#[tactic(auto, using(capsule_check::proofs::Places::refused_located))]
pub fn type_guid(s: &[u8], k: usize) -> [u8; 16]
    ensures { result ≡ type_guid_of s.now (located s.now k) }
{
    match values_of(s, k) {
        Ok(v) => v.guid,
        Err(_) => [0; 16],
    }
}

// The image index of payload item k.
#[tactic(auto, using(capsule_check::proofs::Places::refused_located))]
pub fn image_index(s: &[u8], k: usize) -> u8
    ensures { result ≡ image_index_of s.now (located s.now k) }
{
    values_of(s, k).map_or(0, |v| v.index)
}

// The hardware instance of payload item k.
#[tactic(auto, using(capsule_check::proofs::Places::refused_located))]
pub fn hardware_instance(s: &[u8], k: usize) -> u64
    ensures { result ≡ hardware_instance_of s.now (located s.now k) }
{
    values_of(s, k).map_or(0, |v| v.instance)
}
