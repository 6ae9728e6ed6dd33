// A capsule's items, and the sister that gives the refusal (C17, C18, C22 to C24). Every entry checks the whole capsule
// first and has no condition: a refused one answers the empty part at the capsule's start, and `refusal` says which
// refusal it was, or none, for the same capsule and item number. What an item holds is handed out by crate
// capsule_parts.
#![tactic(auto)]

ghost use Rattle.std.specs.Prelude.{◌≡◌};
ghost use Rattle.capsule_check.specs.Verdict.{item_verdict};
ghost use Rattle.capsule_check.specs.Item.{located};
ghost use Rattle.fields.specs.Part.{IsPart, range_of};
ghost use Rattle.capsule_items.specs.Items.{item_part};

use capsule_check::{Item, locate};
use fields::{Span, part_of};
use refusals::Refusal;

// The sister of all entries that take an item number: the refusal, 10 to 16, or none.
#[tactic(auto, using(capsule_check::proofs::Places::judged))]
pub fn refusal(s: &[u8], k: usize) -> Result<(), Refusal>
    ensures { result ≡ item_verdict s.now k }
{
    locate(s, k)?;
    Ok(())
}

// Where the whole item k lies; with a refusal the empty part at the capsule's start.
fn item_span(s: &[u8], k: usize) -> Span
    ensures { range_of result ≡ item_part (located s.now k) }
{
    match locate(s, k) {
        Ok(Item::Driver { start, end } | Item::Payload { start, end }) => Span { start, end },
        Err(_) => Span { start: 0, end: 0 },
    }
}

// The whole item k.
pub fn item(s: &[u8], k: usize) -> &[u8]
    ensures { IsPart s.entry result (item_part (located s.now k)) }
{
    let p = item_span(s, k);
    part_of(s, p.start, p.end)
}
