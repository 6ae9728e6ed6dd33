// The way in from C and Rust (include/meanderpeg.h): the calls Commit and End. Each passes and answers as those of
// crate `c_begin` do, an array of 16 bytes as a pointer.
// Parted from its neighbours for the prover: each must-fail edit proves its whole crate again.
#![tactic(auto)]

ghost use Rattle.std.specs.Prelude.{◌≡◌};
ghost use Rattle.update_changes.specs.Changed.{commit, end};
ghost use Rattle.c_answer.specs.Answers.{exported};

use c_answer::{AnswerNumbers, answer_in_numbers};
use c_session::SessionNumbers;
use update_session::Session;

// By type GUID and a request (S7, S8).
#[unsafe(no_mangle)]
pub extern "C" fn meanderpeg_commit(
    session: SessionNumbers,
    area: &[u8],
    guid: &[u8; 16],
    request: u32,
    out: &mut [u32],
) -> AnswerNumbers
    ensures { (result, out.new)
        ≡ exported (commit guid.now request) session area.now out.old }
{
    answer_in_numbers(
        session,
        Session::from(session).commit(area, *guid, request, out),
    )
}

// Makes the update bank the active one (S9, S10); 27 tells how many images are missing (N27).
#[unsafe(no_mangle)]
pub extern "C" fn meanderpeg_end(
    session: SessionNumbers,
    area: &[u8],
    out: &mut [u32],
) -> AnswerNumbers
    ensures { (result, out.new) ≡ exported end session area.now out.old }
{
    answer_in_numbers(session, Session::from(session).end(area, out))
}
