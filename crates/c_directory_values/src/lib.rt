// The way in from C and Rust (include/meanderpeg.h): what an image directory shows of an entry. A slice passes as a
// pointer and a length, an array behind a reference as a pointer.
// Each function returns 0 and sets what is shown, past the image count the empty part at the slice's start or zeros
// (I10); or returns the refusal, N43 to N46, and sets nothing (X5).
// The clauses ask the tests twice: in `reply`, and in what is shown, whose branch for a refusal is dead there.
#![tactic(auto)]

ghost use Rattle.std.specs.Prelude.{◌≡◌};
ghost use Rattle.fields.specs.Part.{start_and_length};
ghost use Rattle.refusal_order.specs.Decide.{decide, reply};
ghost use Rattle.directory_layout.specs.Layout.{five};
ghost use Rattle.directory_reader.specs.Reader.{reader_tests};
ghost use Rattle.directory_values.specs.Values.{shown_guid, shown_numbers};
ghost use Rattle.c_reply.specs.Replied.{replied};

use directory_reader::refusal;
use directory_values::{guid_span, numbers_or_zeros};

// Where the type GUID of entry k lies: start and length (X6). The array of two has the layout of struct
// meanderpeg_part.
#[unsafe(no_mangle)]
pub extern "C" fn meanderpeg_directory_type_guid(d: &[u8], k: usize, part: &mut [usize; 2]) -> u32
    ensures { (result, part.new) ≡ replied (reply (decide (reader_tests d.now))
        (start_and_length d.now (shown_guid d.now k))) part.old }
{
    match refusal(d) {
        Ok(()) => {
            let span = guid_span(d, k);
            *part = [span.start, span.end - span.start];
            0
        }
        Err(why) => why.number(),
    }
}

// Its five numbers. The array of five has the layout of struct meanderpeg_directory_entry.
#[unsafe(no_mangle)]
pub extern "C" fn meanderpeg_directory_numbers(d: &[u8], k: usize, numbers: &mut [u32; 5]) -> u32
    ensures { (result, numbers.new) ≡ replied (reply (decide (reader_tests d.now))
        (five (shown_numbers d.now k))) numbers.old }
{
    match refusal(d) {
        Ok(()) => {
            let n = numbers_or_zeros(d, k);
            *numbers = [n.permissions, n.maximum, n.lowest, n.version, n.accepted];
            0
        }
        Err(why) => why.number(),
    }
}
