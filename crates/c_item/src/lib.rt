// The way in from C and Rust (include/meanderpeg.h): a capsule's items. A slice passes as a pointer and a length, an
// array behind a reference as a pointer.
// Parted from its neighbours for the prover: each must-fail edit proves its whole crate again.
#![tactic(auto)]

ghost use Rattle.std.specs.Prelude.{◌≡◌, [], ◌∷◌, ◌-◌, ◌≤◌};
ghost use Rattle.capsule_check.specs.Verdict.{item_verdict};
ghost use Rattle.capsule_check.specs.Item.{located};
ghost use Rattle.fields.specs.Part.{start_and_length};
ghost use Rattle.capsule_items.specs.Items.{item_part};
ghost use Rattle.c_reply.specs.Replied.{replied_by};

use capsule_check::{Item, locate};

// Sets the part from start up to, not including, end.
fn set_part(part: &mut [usize; 2], start: usize, end: usize) -> u32
    requires { start ≤ end }
    ensures { (result ≡ 0) × (part.new ≡ (start ∷ (end - start) ∷ [])) }
{
    *part = [start, end - start];
    0
}

// Returns 0 and sets where the whole item k lies (C18): start and length (X6); or returns the refusal, N10 to N16, and
// sets nothing (X5). The array of two has the layout of C's struct meanderpeg_part.
// The clause asks the verdict twice: in `replied_by`, and in what it gives, whose branch for a refusal is dead there.
#[tactic(auto, unfolding(refusal_order::specs::Decide::reply), using(capsule_items::proofs::Items::item_told))]
#[unsafe(no_mangle)]
pub extern "C" fn meanderpeg_capsule_item(s: &[u8], k: usize, part: &mut [usize; 2]) -> u32
    ensures { (result, part.new) ≡ replied_by (item_verdict s.now k)
        (start_and_length s.now (item_part (located s.now k))) part.old }
{
    match locate(s, k) {
        Ok(Item::Driver { start, end }) => set_part(part, start, end),
        Ok(Item::Payload { start, end }) => set_part(part, start, end),
        Err(why) => why.number(),
    }
}
