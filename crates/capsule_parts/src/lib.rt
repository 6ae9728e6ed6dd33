// The parts of a capsule's items: a payload's image and vendor code (C19, C20). Both entries check the whole capsule
// first and have no condition: a refused one answers the empty part at the capsule's start, and
// `capsule_items::refusal` says which refusal it was.
#![tactic(auto)]

ghost use Rattle.std.specs.Prelude.{◌≡◌, true, ◌+◌, ◌^◌, ◌<◌, length, IfOk};
ghost use Rattle.capsule_payloads.specs.Payload.{image_start, image_end, vendor_code_end, payload_right};
ghost use Rattle.capsule_check.specs.Verdict.{verdict_of, item_verdict};
ghost use Rattle.capsule_check.specs.Item.{located};
ghost use Rattle.fields.specs.Part.{IsPart};
ghost use Rattle.capsule_parts.specs.Parts.{image_part, vendor_code_part, image_told, vendor_code_told};

use capsule_check::{Item, locate};
use fields::part_of;
use refusals::Refusal;

// Where the parts of an item lie in the capsule: the image from `image` up to `code`, the vendor code from there up to
// `end`.
#[derive(Clone, Copy, Debug, PartialEq, Eq)]
pub struct Places {
    pub image: usize,
    pub code: usize,
    pub end: usize,
}

// Those of a payload p that stands at `at`.
#[tactic(auto, using(capsule_payloads::proofs::Payload::told))]
fn payload_places(p: &[u8], at: usize) -> Places
    requires { (payload_right p.now ≡ true) × (at + length p.now < 2 ^ 64) }
    ensures { (result.image ≡ at + image_start p.now) × (result.code ≡ at + image_end p.now)
        × (result.end ≡ at + vendor_code_end p.now) }
{
    let image = at + capsule_payloads::header_length(fields::read32(p, 0));
    let code = image + (fields::read32(p, 24) as usize);
    let end = code + (fields::read32(p, 28) as usize);
    Places { image, code, end }
}

// Those of item k, or the refusal: a driver's image is its whole item, its vendor code is empty. It serves c_image and
// c_vendor_code too, which tell starts and lengths in numbers.
#[tactic(auto, using(capsule_check::proofs::Places::judged, capsule_check::proofs::Places::payload))]
pub fn places_of(s: &[u8], k: usize) -> Result<Places, Refusal>
    ensures judged { verdict_of result ≡ item_verdict s.now k }
    ensures placed { IfOk result (λ p. (image_told p ≡ image_part s.now (located s.now k))
        × (vendor_code_told p ≡ vendor_code_part s.now (located s.now k))) }
{
    Ok(match locate(s, k)? {
        Item::Driver { start, end } => Places {
            image: start,
            code: end,
            end,
        },
        Item::Payload { start, end } => payload_places(&s[start..end], start),
    })
}

// The image of item k: a payload's image, and the whole item of a driver.
#[tactic(auto, using(capsule_check::proofs::Places::refused_located))]
pub fn image(s: &[u8], k: usize) -> &[u8]
    ensures { IsPart s.entry result (image_part s.now (located s.now k)) }
{
    match places_of(s, k) {
        Ok(p) => part_of(s, p.image, p.code),
        Err(_) => part_of(s, 0, 0),
    }
}

// The vendor code of item k: a driver has an empty one at its end.
#[tactic(auto, using(capsule_check::proofs::Places::refused_located))]
pub fn vendor_code(s: &[u8], k: usize) -> &[u8]
    ensures { IsPart s.entry result (vendor_code_part s.now (located s.now k)) }
{
    match places_of(s, k) {
        Ok(p) => part_of(s, p.code, p.end),
        Err(_) => part_of(s, 0, 0),
    }
}
