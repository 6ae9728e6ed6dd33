// The number of what an entry answers that gives nothing where it passed its input.
#![tactic(auto)]

ghost use Rattle.std.specs.Prelude.{◌≡◌};
ghost use Rattle.refusal_order.specs.Decide.{verdict_number};

use refusals::Refusal;

// The refusal's number, or 0 for none (N104).
pub fn number(verdict: Result<(), Refusal>) -> u32
    ensures { result ≡ verdict_number verdict }
{
    match verdict {
        Ok(()) => 0,
        Err(why) => why.number(),
    }
}
