// How many items of each kind a capsule has (C25). Both entries check the whole capsule first and have no condition: a
// refused one answers 0, and `capsule_items::refusal` says which refusal it was.
#![tactic(auto)]

ghost use Rattle.std.specs.Prelude.{◌≡◌, IfOk};
ghost use Rattle.capsule_check.specs.Verdict.{verdict_of, verdict};
ghost use Rattle.capsule_counts.specs.Count.{driver_count, payload_count};

use capsule_check::check;
use capsule_header::body_of;
use refusals::Refusal;

// How many items of each kind.
#[derive(Clone, Copy, Debug, PartialEq, Eq)]
pub struct Counts {
    pub drivers: usize,
    pub payloads: usize,
}

// Those of a faultless capsule, or the refusal. It serves c_capsule too.
#[tactic(auto, using(capsule_check::proofs::Places::fit), unfolding(crate::specs::Count::driver_count, crate::specs::Count::payload_count))]
pub fn counts_of(s: &[u8]) -> Result<Counts, Refusal>
    ensures judged { verdict_of result ≡ verdict s.now }
    ensures counted { IfOk result (λ c. (c.drivers ≡ driver_count s.now) × (c.payloads ≡ payload_count s.now)) }
{
    check(s)?;
    let b = body_of(s);
    let drivers = capsule_body::drivers(b);
    let payloads = capsule_body::payloads(b);
    Ok(Counts { drivers, payloads })
}

// How many drivers a faultless capsule has.
#[tactic(auto, unfolding(crate::specs::Count::driver_count))]
pub fn driver_count(s: &[u8]) -> usize
    ensures { result ≡ driver_count s.now }
{
    counts_of(s).map_or(0, |c| c.drivers)
}

// How many payloads, as above.
#[tactic(auto, unfolding(crate::specs::Count::payload_count))]
pub fn payload_count(s: &[u8]) -> usize
    ensures { result ≡ payload_count s.now }
{
    counts_of(s).map_or(0, |c| c.payloads)
}
