// The entries and the theorem, tied (P13): each function here calls one entry and promises, of its very answer and of
// the numbers that stand in the slice at exit, what crates/proof_power_cuts/specs/PowerCuts.antt says. That is their
// whole purpose: no other crate uses them, and the device calls the entries themselves. Nothing is asked of the
// arguments.
#![tactic(auto)]

ghost use Rattle.update_changes.specs.Changed.{begin, commit, end, cancel, accept, select_previous};
ghost use Rattle.update_session.specs.Outcome.{outcome_of};
ghost use Rattle.refusal_order.specs.Decide.{reply_of};
ghost use Rattle.proof_surviving_calls.specs.Tied.{Tied, TiedRepair, TiedStartUp};

use refusals::Refusal;
use update_session::{Answer, Session};

// Begin.
pub fn begin(session: Session, area: &[u8], out: &mut [u32]) -> Answer
    ensures { Tied begin session area.now out.old (outcome_of result) out.new }
{
    session.begin(area, out)
}

// Commit.
pub fn commit(
    session: Session,
    area: &[u8],
    guid: [u8; 16],
    request: u32,
    out: &mut [u32],
) -> Answer
    ensures { Tied (commit guid request) session area.now out.old (outcome_of result) out.new }
{
    session.commit(area, guid, request, out)
}

// End.
pub fn end(session: Session, area: &[u8], out: &mut [u32]) -> Answer
    ensures { Tied end session area.now out.old (outcome_of result) out.new }
{
    session.end(area, out)
}

// Cancel.
pub fn cancel(session: Session, area: &[u8], out: &mut [u32]) -> Answer
    ensures { Tied cancel session area.now out.old (outcome_of result) out.new }
{
    session.cancel(area, out)
}

// Accept.
pub fn accept(session: Session, area: &[u8], guid: [u8; 16], out: &mut [u32]) -> Answer
    ensures { Tied (accept guid) session area.now out.old (outcome_of result) out.new }
{
    session.accept(area, guid, out)
}

// Select previous.
pub fn select_previous(session: Session, area: &[u8], out: &mut [u32]) -> Answer
    ensures { Tied select_previous session area.now out.old (outcome_of result) out.new }
{
    session.select_previous(area, out)
}

// Repair.
pub fn repair(area: &[u8], out: &mut [u32]) -> Result<usize, Refusal>
    ensures { TiedRepair area.now out.old (reply_of result) out.new }
{
    update_repair::repair(area, out)
}

// Start-up.
pub fn start_up(area: &[u8], booted: u32) -> Result<Session, Refusal>
    ensures { TiedStartUp area.now booted (reply_of result) }
{
    update_start_up::start_up(area, booted)
}
