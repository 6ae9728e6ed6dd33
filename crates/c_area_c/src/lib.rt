// The static library of crate c_area for C and Rust: its functions, with the same clauses, under the names that
// include/meanderpeg.h has.
#![tactic(auto)]

ghost use Rattle.std.specs.Prelude.{◌≡◌};
ghost use Rattle.report.specs.Report.{report_in};
ghost use Rattle.c_area.specs.Soundness.{sound_copies, exported_soundness};

// Sets the bits of `sound_copies`; N20 (X7).
#[unsafe(no_mangle)]
pub extern "C" fn meanderpeg_soundness(area: &[u8], found: &mut u32) -> u32
    ensures { (result, found.new) ≡ exported_soundness area.now found.old }
{
    c_area::meanderpeg_soundness(area, found)
}

// The report at the front of `text`, as `report::report` writes it, and how many bytes it has (T7).
#[unsafe(no_mangle)]
pub extern "C" fn meanderpeg_report(area: &[u8], text: &mut [u8]) -> usize
    ensures { (result, text.new) ≡ report_in area.now text.old }
{
    c_area::meanderpeg_report(area, text)
}
