// The static library of crate c_start_up for C and Rust: its functions, with the same clauses, under the names that
// include/meanderpeg.h has.
#![tactic(auto)]

ghost use Rattle.std.specs.Prelude.{◌≡◌};
ghost use Rattle.update_start_up.specs.StartUp.{start_up_of};
ghost use Rattle.update_repair.specs.Repair.{repaired};
ghost use Rattle.c_start_up.specs.Exported.{exported_start, exported_repair};

use c_answer::AnswerNumbers;

// The session that an area and the booted bank give (S2), none with a refusal (X4).
#[unsafe(no_mangle)]
pub extern "C" fn meanderpeg_start_up(area: &[u8], booted: u32) -> AnswerNumbers
    ensures { result ≡ exported_start (start_up_of area.now booted) }
{
    c_start_up::meanderpeg_start_up(area, booted)
}

// Lists the stores of a repair (R27), and gives no session (X4).
#[unsafe(no_mangle)]
pub extern "C" fn meanderpeg_repair(area: &[u8], out: &mut [u32]) -> AnswerNumbers
    ensures { (result, out.new) ≡ exported_repair (repaired area.now out.old) }
{
    c_start_up::meanderpeg_repair(area, out)
}
