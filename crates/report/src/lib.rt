// The report (T1 to T7): an area's record as lines of text, in a lent slice.
#![tactic(auto)]

ghost use Rattle.std.specs.Prelude.{◌≡◌, Some};
ghost use Rattle.refusals.specs.Number.{number_of};
ghost use Rattle.report_text.specs.Wrote.{Room, Wrote};
ghost use Rattle.report.specs.Report.{copy_number, refused_line, report_in};

use record_copies::{Source, read_record, read_source};
use record_layout::AREA;
use refusals::Refusal;
use report_lines::record_lines;
use report_text::Text;

// How many bytes hold every report.
pub const REPORT_LIMIT: usize = 4096;

// The number of the copy that is read.
fn copy_number(from: Source) -> u32
    ensures { result ≡ copy_number (Some from) }
{
    match from {
        Source::Copy0 => 0,
        Source::Copy1 => 1,
    }
}

// The line of a refusal.
fn refused_line(out: &mut [u8], refusal: Refusal) -> usize
    requires { Room 0 (refused_line (number_of refusal)) out.old }
    ensures { Wrote 0 result (refused_line (number_of refusal)) out.old out.new }
{
    let mut text = Text::new(out);
    text.line(b"refused", &[refusal.number()]);
    text.len()
}

// Writes the report of an area at the front of `out` and answers how many bytes it has; every byte past it stays. A
// slice below REPORT_LIMIT bytes stays whole, and the answer is 0, which no report has.
pub fn report(area: &[u8], out: &mut [u8]) -> usize
    ensures { (result, out.new) ≡ report_in area.now out.old }
{
    if out.len() < REPORT_LIMIT {
        return 0;
    }
    if area.len() != AREA {
        return refused_line(out, Refusal::AreaLength);
    }
    let Some(from) = read_source(area) else {
        return refused_line(out, Refusal::NoSoundCopy);
    };
    record_lines(out, copy_number(from), read_record(area, from))
}
