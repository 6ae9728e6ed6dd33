// The rules on a capsule's payload headers (C14 to C16). Each is a function that answers what its definition says. No
// byte of an image is read.
#![tactic(auto)]

ghost use Rattle.std.specs.Prelude.{◌≡◌, true, ◌≤◌, length};
ghost use Rattle.capsule_body.specs.Body.{body_right};
ghost use Rattle.capsule_payloads.specs.Payload.{version_right, header_length, vendor_code_end, payload_right, payloads_right};

use capsule_body::{drivers, item_bytes, payloads};

// Whether a payload header has this version.
#[tactic(auto, unfolding(crate::specs::Payload::version_right))]
pub fn version_right(version: u32) -> bool
    ensures { result ≡ version_right version }
{
    version == 1 || version == 2
}

// The length of a payload header of this version, where the version is 1 or 2.
#[tactic(auto, unfolding(crate::specs::Payload::header_length))]
pub fn header_length(version: u32) -> usize
    ensures { result ≡ header_length version }
{
    if version == 1 { 32 } else { 40 }
}

// Where header, image and vendor code of an item end. Both sizes are widened before they are added.
#[tactic(auto, using(crate::proofs::Payload::fields_read, crate::proofs::Payload::header_ends))]
fn payload_end(p: &[u8]) -> usize
    requires { 32 ≤ length p.now }
    ensures { result ≡ vendor_code_end p.now }
{
    let image = fields::read32(p, 24) as usize;
    let vendor = fields::read32(p, 28) as usize;
    header_length(fields::read32(p, 0)) + image + vendor
}

// N15, for one item: the header's version, and that header, image and vendor code fit.
#[tactic(auto, unfolding(crate::specs::Payload::payload_right, crate::specs::Payload::version), using(crate::proofs::Payload::short_fails))]
pub fn payload_right(p: &[u8]) -> bool
    ensures { result ≡ payload_right p.now }
{
    32 <= p.len() && version_right(fields::read32(p, 0)) && payload_end(p) <= p.len()
}

// All payloads of a right body: N15.
#[tactic(auto, using(capsule_body::proofs::Body::counts_fit, capsule_body::proofs::Body::few_items))]
pub fn payloads_right(b: &[u8]) -> bool
    requires { body_right b.now ≡ true }
    ensures { result ≡ payloads_right b.now }
{
    let first = drivers(b);
    let count = payloads(b);
    (0..count).all(|j| payload_right(item_bytes(b, first + count, first + j)))
}
