// The way in from C and Rust (include/meanderpeg.h): the check of an image directory, with what its header shows. A
// slice passes as a pointer and a length, an array behind a reference as a pointer.
#![tactic(auto)]

ghost use Rattle.std.specs.Prelude.{◌≡◌, [], ◌∷◌};
ghost use Rattle.refusal_order.specs.Decide.{decide, reply};
ghost use Rattle.directory_reader.specs.Reader.{reader_tests, shown_images, shown_correct_boot};
ghost use Rattle.c_reply.specs.Replied.{replied};

use directory_layout::{CORRECT_BOOT_AT, IMAGES_AT};
use directory_reader::refusal;
use fields::read32;

// Returns 0 and sets the image count and correct_boot (I10); or returns the refusal, N43 to N46, and sets nothing (X5).
// The array of two has the layout of C's struct meanderpeg_directory. The clause asks the tests twice: in `reply`, and
// in what is shown, whose branch for a refusal is dead there.
#[tactic(auto, using(directory_reader::proofs::Taken::taken, directory_reader::proofs::Taken::header_in))]
#[unsafe(no_mangle)]
pub extern "C" fn meanderpeg_directory_check(d: &[u8], shown: &mut [u32; 2]) -> u32
    ensures { (result, shown.new) ≡ replied (reply (decide (reader_tests d.now))
        (shown_images d.now ∷ shown_correct_boot d.now ∷ [])) shown.old }
{
    match refusal(d) {
        Ok(()) => {
            *shown = [read32(d, IMAGES_AT), read32(d, CORRECT_BOOT_AT)];
            0
        }
        Err(why) => why.number(),
    }
}
