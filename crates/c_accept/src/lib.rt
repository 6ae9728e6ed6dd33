// The way in from C and Rust (include/meanderpeg.h): the calls Accept and Select previous. Each passes and answers as
// those of crate `c_begin` do, an array of 16 bytes as a pointer.
// Parted from its neighbours for the prover: each must-fail edit proves its whole crate again.
#![tactic(auto)]

ghost use Rattle.std.specs.Prelude.{◌≡◌};
ghost use Rattle.update_changes.specs.Changed.{accept, select_previous};
ghost use Rattle.c_answer.specs.Answers.{exported};

use c_answer::{AnswerNumbers, answer_in_numbers};
use c_session::SessionNumbers;
use update_session::Session;

// By type GUID (S12 to S14).
#[unsafe(no_mangle)]
pub extern "C" fn meanderpeg_accept(
    session: SessionNumbers,
    area: &[u8],
    guid: &[u8; 16],
    out: &mut [u32],
) -> AnswerNumbers
    ensures { (result, out.new) ≡ exported (accept guid.now) session area.now out.old }
{
    answer_in_numbers(session, Session::from(session).accept(area, *guid, out))
}

// Exchanges the active and the previous bank (S15, S16).
#[unsafe(no_mangle)]
pub extern "C" fn meanderpeg_select_previous(
    session: SessionNumbers,
    area: &[u8],
    out: &mut [u32],
) -> AnswerNumbers
    ensures { (result, out.new) ≡ exported select_previous session area.now out.old }
{
    answer_in_numbers(session, Session::from(session).select_previous(area, out))
}
