// The check of a whole capsule, and where an item of a faultless one lies. It reads the header, the list of offsets and
// the payload headers and no byte of an image, so its cost does not grow with the images' size.
#![tactic(auto)]

ghost use Rattle.std.specs.Prelude.{◌≡◌};
ghost use Rattle.capsule_check.specs.Verdict.{verdict};
ghost use Rattle.capsule_check.specs.Item.{located};

use capsule_body::{body_right, drivers, item_end, item_start, payloads};
use capsule_header::{body_of, flags_right, guid_right, sizes_right};
use capsule_payloads::payloads_right;
use refusals::Refusal;

// An item, by its start and its end in the capsule.
#[derive(Clone, Copy, Debug, PartialEq, Eq)]
pub enum Item {
    Driver { start: usize, end: usize },
    Payload { start: usize, end: usize },
}

// The check of a whole capsule: refusals 10 to 15, the lowest that applies.
#[tactic(auto, unfolding(crate::specs::Verdict::verdict, capsule_header::specs::Header::flags))]
pub fn check(s: &[u8]) -> Result<(), Refusal>
    ensures { result ≡ verdict s.now }
{
    if s.len() < 28 {
        return Err(Refusal::CapsuleShort);
    }
    if !sizes_right(s) {
        return Err(Refusal::CapsuleSizes);
    }
    if !flags_right(fields::read32(s, 20)) {
        return Err(Refusal::CapsuleFlags);
    }
    if !guid_right(s) {
        return Err(Refusal::CapsuleGuid);
    }
    let b = body_of(s);
    if !body_right(b) {
        return Err(Refusal::CapsuleBody);
    }
    if !payloads_right(b) {
        return Err(Refusal::CapsulePayload);
    }
    Ok(())
}

// Where item k lies, after the check of the whole capsule; or the refusal, 16 too.
#[tactic(auto, using(crate::proofs::Places::picks))]
pub fn locate(s: &[u8], k: usize) -> Result<Item, Refusal>
    ensures { result ≡ located s.now k }
{
    check(s)?;
    let body = fields::read32(s, 16) as usize;
    let b = body_of(s);
    let first = drivers(b);
    let n = first + payloads(b);
    if n <= k {
        return Err(Refusal::NoItem);
    }
    let start = body + item_start(b, n, k);
    let end = body + item_end(b, n, k);
    if k < first {
        Ok(Item::Driver { start, end })
    } else {
        Ok(Item::Payload { start, end })
    }
}
