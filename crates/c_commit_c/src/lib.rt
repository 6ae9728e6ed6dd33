// The static library of crate c_commit for C and Rust: its functions, with the same clauses, under the names that
// include/meanderpeg.h has.
#![tactic(auto)]

ghost use Rattle.std.specs.Prelude.{◌≡◌};
ghost use Rattle.update_changes.specs.Changed.{commit, end};
ghost use Rattle.c_answer.specs.Answers.{exported};

use c_answer::AnswerNumbers;
use c_session::SessionNumbers;

// By type GUID and a request (S7, S8).
#[unsafe(no_mangle)]
pub extern "C" fn meanderpeg_commit(
    session: SessionNumbers,
    area: &[u8],
    guid: &[u8; 16],
    request: u32,
    out: &mut [u32],
) -> AnswerNumbers
    ensures { (result, out.new)
        ≡ exported (commit guid.now request) session area.now out.old }
{
    c_commit::meanderpeg_commit(session, area, guid, request, out)
}

// Makes the update bank the active one (S9, S10); 27 tells how many images are missing (N27).
#[unsafe(no_mangle)]
pub extern "C" fn meanderpeg_end(
    session: SessionNumbers,
    area: &[u8],
    out: &mut [u32],
) -> AnswerNumbers
    ensures { (result, out.new) ≡ exported end session area.now out.old }
{
    c_commit::meanderpeg_end(session, area, out)
}
