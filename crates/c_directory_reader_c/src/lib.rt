// The static library of crate c_directory_reader for C and Rust: its functions, with the same clauses, under the names that
// include/meanderpeg.h has.
#![tactic(auto)]

ghost use Rattle.std.specs.Prelude.{◌≡◌, [], ◌∷◌};
ghost use Rattle.refusal_order.specs.Decide.{decide, reply};
ghost use Rattle.directory_reader.specs.Reader.{reader_tests, shown_images, shown_correct_boot};
ghost use Rattle.c_reply.specs.Replied.{replied};

// Returns 0 and sets the image count and correct_boot (I10); or returns the refusal, N43 to N46, and sets nothing (X5).
// The array of two has the layout of C's struct meanderpeg_directory. The clause asks the tests twice: in `reply`, and
// in what is shown, whose branch for a refusal is dead there.
#[unsafe(no_mangle)]
pub extern "C" fn meanderpeg_directory_check(d: &[u8], shown: &mut [u32; 2]) -> u32
    ensures { (result, shown.new) ≡ replied (reply (decide (reader_tests d.now))
        (shown_images d.now ∷ shown_correct_boot d.now ∷ [])) shown.old }
{
    c_directory_reader::meanderpeg_directory_check(d, shown)
}
