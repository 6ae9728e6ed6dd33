// The way in from C and Rust (include/meanderpeg.h): the calls Begin and Cancel. A slice passes as a pointer and a
// length; the session and the answer are structs by value (X1 to X4). Each call lists its stores in `out`, which a
// refusal leaves as it was (N105).
// Parted from its neighbours for the prover: each must-fail edit proves its whole crate again.
#![tactic(auto)]

ghost use Rattle.std.specs.Prelude.{◌≡◌};
ghost use Rattle.update_changes.specs.Changed.{begin, cancel};
ghost use Rattle.c_answer.specs.Answers.{exported};

use c_answer::{AnswerNumbers, answer_in_numbers};
use c_session::SessionNumbers;
use update_session::Session;

// Opens a Staging session (S5, S6).
#[unsafe(no_mangle)]
pub extern "C" fn meanderpeg_begin(
    session: SessionNumbers,
    area: &[u8],
    out: &mut [u32],
) -> AnswerNumbers
    ensures { (result, out.new) ≡ exported begin session area.now out.old }
{
    answer_in_numbers(session, Session::from(session).begin(area, out))
}

// Lists no store (S11).
#[unsafe(no_mangle)]
pub extern "C" fn meanderpeg_cancel(
    session: SessionNumbers,
    area: &[u8],
    out: &mut [u32],
) -> AnswerNumbers
    ensures { (result, out.new) ≡ exported cancel session area.now out.old }
{
    answer_in_numbers(session, Session::from(session).cancel(area, out))
}
