// The static library of crate c_accept for C and Rust: its functions, with the same clauses, under the names that
// include/meanderpeg.h has.
#![tactic(auto)]

ghost use Rattle.std.specs.Prelude.{◌≡◌};
ghost use Rattle.update_changes.specs.Changed.{accept, select_previous};
ghost use Rattle.c_answer.specs.Answers.{exported};

use c_answer::AnswerNumbers;
use c_session::SessionNumbers;

// By type GUID (S12 to S14).
#[unsafe(no_mangle)]
pub extern "C" fn meanderpeg_accept(
    session: SessionNumbers,
    area: &[u8],
    guid: &[u8; 16],
    out: &mut [u32],
) -> AnswerNumbers
    ensures { (result, out.new) ≡ exported (accept guid.now) session area.now out.old }
{
    c_accept::meanderpeg_accept(session, area, guid, out)
}

// Exchanges the active and the previous bank (S15, S16).
#[unsafe(no_mangle)]
pub extern "C" fn meanderpeg_select_previous(
    session: SessionNumbers,
    area: &[u8],
    out: &mut [u32],
) -> AnswerNumbers
    ensures { (result, out.new) ≡ exported select_previous session area.now out.old }
{
    c_accept::meanderpeg_select_previous(session, area, out)
}
