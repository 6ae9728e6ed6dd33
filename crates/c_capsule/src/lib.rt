// The way in from C and Rust (include/meanderpeg.h): the check of a whole capsule. A slice passes as a pointer and a
// length, an array behind a reference as a pointer.
#![tactic(auto)]

ghost use Rattle.std.specs.Prelude.{◌≡◌, [], ◌∷◌};
ghost use Rattle.capsule_check.specs.Verdict.{verdict};
ghost use Rattle.capsule_counts.specs.Count.{driver_count, payload_count};
ghost use Rattle.c_reply.specs.Replied.{replied_by};

// Checks a whole capsule (C1 to C16). Returns 0 and sets how many drivers and payloads it has (C25); or returns the
// refusal, N10 to N15, and sets nothing (X5). The array of two has the layout of C's struct meanderpeg_counts.
// The clause asks the verdict twice: in `replied_by`, and in what it gives, whose branch for a refusal is dead there.
#[tactic(auto, unfolding(refusal_order::specs::Decide::reply))]
#[unsafe(no_mangle)]
pub extern "C" fn meanderpeg_capsule_check(s: &[u8], counts: &mut [usize; 2]) -> u32
    ensures { (result, counts.new) ≡ replied_by (verdict s.now)
        (driver_count s.now ∷ payload_count s.now ∷ []) counts.old }
{
    match capsule_counts::counts_of(s) {
        Ok(found) => {
            *counts = [found.drivers, found.payloads];
            0
        }
        Err(why) => why.number(),
    }
}
