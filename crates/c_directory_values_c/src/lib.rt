// The static library of crate c_directory_values for C and Rust: its functions, with the same clauses, under the names that
// include/meanderpeg.h has.
#![tactic(auto)]

ghost use Rattle.std.specs.Prelude.{◌≡◌};
ghost use Rattle.fields.specs.Part.{start_and_length};
ghost use Rattle.refusal_order.specs.Decide.{decide, reply};
ghost use Rattle.directory_layout.specs.Layout.{five};
ghost use Rattle.directory_reader.specs.Reader.{reader_tests};
ghost use Rattle.directory_values.specs.Values.{shown_guid, shown_numbers};
ghost use Rattle.c_reply.specs.Replied.{replied};

// Where the type GUID of entry k lies: start and length (X6). The array of two has the layout of struct
// meanderpeg_part.
#[unsafe(no_mangle)]
pub extern "C" fn meanderpeg_directory_type_guid(d: &[u8], k: usize, part: &mut [usize; 2]) -> u32
    ensures { (result, part.new) ≡ replied (reply (decide (reader_tests d.now))
        (start_and_length d.now (shown_guid d.now k))) part.old }
{
    c_directory_values::meanderpeg_directory_type_guid(d, k, part)
}

// Its five numbers. The array of five has the layout of struct meanderpeg_directory_entry.
#[unsafe(no_mangle)]
pub extern "C" fn meanderpeg_directory_numbers(d: &[u8], k: usize, numbers: &mut [u32; 5]) -> u32
    ensures { (result, numbers.new) ≡ replied (reply (decide (reader_tests d.now))
        (five (shown_numbers d.now k))) numbers.old }
{
    c_directory_values::meanderpeg_directory_numbers(d, k, numbers)
}
