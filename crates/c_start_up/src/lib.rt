// The way in from C and Rust (include/meanderpeg.h): start-up and repair. A slice passes as a pointer and a length; the
// answer is a struct by value (X3). A refusal leaves the store slice as it was (N105).
#![tactic(auto)]

ghost use Rattle.std.specs.Prelude.{◌≡◌};
ghost use Rattle.update_start_up.specs.StartUp.{start_up_of};
ghost use Rattle.update_repair.specs.Repair.{repaired};
ghost use Rattle.c_start_up.specs.Exported.{exported_start, exported_repair};

use c_answer::{AnswerNumbers, passed, refused};
use c_session::{SessionNumbers, no_session};

// The session that an area and the booted bank give (S2), none with a refusal (X4).
#[unsafe(no_mangle)]
pub extern "C" fn meanderpeg_start_up(area: &[u8], booted: u32) -> AnswerNumbers
    ensures { result ≡ exported_start (start_up_of area.now booted) }
{
    match update_start_up::start_up(area, booted) {
        Ok(session) => passed(SessionNumbers::from(session), 0),
        Err(why) => refused(no_session(), why),
    }
}

// Lists the stores of a repair (R27), and gives no session (X4).
#[unsafe(no_mangle)]
pub extern "C" fn meanderpeg_repair(area: &[u8], out: &mut [u32]) -> AnswerNumbers
    ensures { (result, out.new) ≡ exported_repair (repaired area.now out.old) }
{
    match update_repair::repair(area, out) {
        Ok(pairs) => passed(no_session(), pairs),
        Err(why) => refused(no_session(), why),
    }
}
