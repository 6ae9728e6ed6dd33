// An answer as C has it (X3; include/meanderpeg.h): one struct, by value, for start-up, repair and the six calls.
#![tactic(auto)]

ghost use Rattle.std.specs.Prelude.{◌≡◌};
ghost use Rattle.refusals.specs.Number.{number_of, values_of};
ghost use Rattle.update_session.specs.Outcome.{outcome_of};
ghost use Rattle.c_answer.specs.Answers.{slots, passed_numbers, refused_numbers, exported_outcome};

use c_session::SessionNumbers;
use refusals::Refusal;
use update_session::Answer;

// The refusal's number, 0 for none (N104); what it tells beside; the session that is next, or with a refusal the one
// given; how many pairs are listed.
#[repr(C)]
#[derive(Clone, Copy)]
pub struct AnswerNumbers {
    pub refusal: u32,
    pub told: [u32; 2],
    pub session: SessionNumbers,
    pub pairs: usize,
}

// What a refusal tells beside its number (N107), 0 where it tells less than two numbers (X3).
fn told_by(why: Refusal) -> [u32; 2]
    ensures { result ≡ slots (values_of why) }
{
    match why {
        Refusal::ImagesMissing(count) => [count, 0],
        _ => [0, 0],
    }
}

// Passed, with the next session and a list of that many pairs.
pub fn passed(next: SessionNumbers, pairs: usize) -> AnswerNumbers
    ensures { result ≡ passed_numbers next pairs }
{
    AnswerNumbers {
        refusal: 0,
        told: [0, 0],
        session: next,
        pairs,
    }
}

// Refused: the session as it was given, also where its numbers name none (X2), no list.
pub fn refused(given: SessionNumbers, why: Refusal) -> AnswerNumbers
    ensures { result ≡ refused_numbers given (number_of why) (values_of why) }
{
    AnswerNumbers {
        refusal: why.number(),
        told: told_by(why),
        session: given,
        pairs: 0,
    }
}

// The answer of a call that was given that session.
#[tactic(auto, unfolding(refusal_order::specs::Decide::reply))]
pub fn answer_in_numbers(given: SessionNumbers, answer: Answer) -> AnswerNumbers
    ensures { result ≡ exported_outcome given (outcome_of answer) }
{
    match answer.verdict {
        Ok(()) => passed(SessionNumbers::from(answer.session), answer.stores),
        Err(why) => refused(given, why),
    }
}
