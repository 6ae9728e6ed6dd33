// What an exported function returns, and sets behind its pointer (X5).
#![tactic(auto)]

ghost use Rattle.std.specs.Prelude.{◌≡◌};
ghost use Rattle.refusal_order.specs.Decide.{reply_of};
ghost use Rattle.c_reply.specs.Replied.{replied};

use refusals::Refusal;

// Returns 0 and sets what the answer gives; or returns the refusal's number and sets nothing.
pub fn reply<T: Copy>(answer: Result<T, Refusal>, behind: &mut T) -> u32
    ensures { (result, behind.new) ≡ replied (reply_of answer) behind.old }
{
    match answer {
        Ok(given) => {
            *behind = given;
            0
        }
        Err(why) => why.number(),
    }
}
