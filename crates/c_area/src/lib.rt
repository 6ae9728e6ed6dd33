// The way in from C and Rust (include/meanderpeg.h): what an area holds. A slice passes as a pointer and a length, a
// number behind a reference as a pointer. A refused soundness sets nothing (X5); the report of a refused area is its
// line (T6).
#![tactic(auto)]

ghost use Rattle.std.specs.Prelude.{◌≡◌, ◌&&◌, length};
ghost use Rattle.record_layout.specs.Layout.{area_size};
ghost use Rattle.record_copies.specs.Copies.{records_equal};
ghost use Rattle.report.specs.Report.{report_in};
ghost use Rattle.c_area.specs.Soundness.{sound_copies, exported_soundness};

use record_copies::{records_equal, sound_at};
use record_layout::{AREA, COPY};

// Whether the copies are sound and equal (R21), of which it is known whether each is sound.
fn both_equal(area: &[u8], first: bool, second: bool) -> bool
    requires { length area.now ≡ area_size }
    ensures { result ≡ ((first && second) && records_equal area.now) }
{
    first && second && records_equal(area)
}

// Which copies are sound (R5), and whether they are equal (R21), as bits (X7).
#[tactic(auto, using(crate::proofs::Bits::bits))]
fn sound_copies(area: &[u8]) -> u32
    requires { length area.now ≡ area_size }
    ensures { result ≡ sound_copies area.now }
{
    let first = sound_at(area, 0);
    let second = sound_at(area, COPY);
    u32::from(first) + 2 * u32::from(second) + 4 * u32::from(both_equal(area, first, second))
}

// Sets the bits of `sound_copies`; N20 (X7).
#[unsafe(no_mangle)]
pub extern "C" fn meanderpeg_soundness(area: &[u8], found: &mut u32) -> u32
    ensures { (result, found.new) ≡ exported_soundness area.now found.old }
{
    if area.len() != AREA {
        return 20;
    }
    *found = sound_copies(area);
    0
}

// The report at the front of `text`, as `report::report` writes it, and how many bytes it has (T7).
#[unsafe(no_mangle)]
pub extern "C" fn meanderpeg_report(area: &[u8], text: &mut [u8]) -> usize
    ensures { (result, text.new) ≡ report_in area.now text.old }
{
    report::report(area, text)
}
