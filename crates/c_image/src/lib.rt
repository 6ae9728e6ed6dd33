// The way in from C and Rust (include/meanderpeg.h): the images of a capsule's items. A slice passes as a pointer and a
// length, an array behind a reference as a pointer.
// Parted from its neighbours for the prover: each must-fail edit proves its whole crate again.
#![tactic(auto)]

ghost use Rattle.std.specs.Prelude.{◌≡◌};
ghost use Rattle.capsule_check.specs.Verdict.{item_verdict};
ghost use Rattle.capsule_check.specs.Item.{located};
ghost use Rattle.fields.specs.Part.{start_and_length};
ghost use Rattle.capsule_parts.specs.Parts.{image_part};
ghost use Rattle.c_reply.specs.Replied.{replied_by};

// Returns 0 and sets where the image of item k lies (C19): start and length (X6); or returns the refusal, N10 to N16,
// and sets nothing (X5). The array of two has the layout of C's struct meanderpeg_part.
// The clause asks the verdict twice: in `replied_by`, and in what it gives, whose branch for a refusal is dead there.
#[unsafe(no_mangle)]
pub extern "C" fn meanderpeg_capsule_image(s: &[u8], k: usize, part: &mut [usize; 2]) -> u32
    ensures { (result, part.new) ≡ replied_by (item_verdict s.now k)
        (start_and_length s.now (image_part s.now (located s.now k))) part.old }
{
    match capsule_parts::places_of(s, k) {
        Ok(places) => {
            *part = [places.image, places.code - places.image];
            0
        }
        Err(why) => why.number(),
    }
}
