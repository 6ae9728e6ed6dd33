// The static library of crate c_begin for C and Rust: its functions, with the same clauses, under the names that
// include/meanderpeg.h has.
#![tactic(auto)]

ghost use Rattle.std.specs.Prelude.{◌≡◌};
ghost use Rattle.update_changes.specs.Changed.{begin, cancel};
ghost use Rattle.c_answer.specs.Answers.{exported};

use c_answer::AnswerNumbers;
use c_session::SessionNumbers;

// Opens a Staging session (S5, S6).
#[unsafe(no_mangle)]
pub extern "C" fn meanderpeg_begin(
    session: SessionNumbers,
    area: &[u8],
    out: &mut [u32],
) -> AnswerNumbers
    ensures { (result, out.new) ≡ exported begin session area.now out.old }
{
    c_begin::meanderpeg_begin(session, area, out)
}

// Lists no store (S11).
#[unsafe(no_mangle)]
pub extern "C" fn meanderpeg_cancel(
    session: SessionNumbers,
    area: &[u8],
    out: &mut [u32],
) -> AnswerNumbers
    ensures { (result, out.new) ≡ exported cancel session area.now out.old }
{
    c_begin::meanderpeg_cancel(session, area, out)
}
