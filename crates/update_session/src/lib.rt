// The session, the answer of the calls, and the six calls (S1, S5 to S18). Each call tests in the order of N110: what
// is tested for every session first, once and before the call looks at which session it is, then its own; a refusal
// hands the session back as it was, with no list.
// The customer names the form: the calls take the session by value and hand the next one back, in a struct beside the
// verdict and the count of stores. Under each call lies its `try_`, which moves a session on, or refuses and leaves it.
#![tactic(auto)]

ghost use Rattle.std.specs.Prelude.{◌≡◌, true, ◌<◌};
ghost use Rattle.record_layout.specs.Layout.{image_count};
ghost use Rattle.record_layout.specs.Rules.{sound};
ghost use Rattle.record_store_lists.specs.Lists.{Changeable};
ghost use Rattle.update_changes.specs.Changed.{begin, commit, end, cancel, accept, select_previous, changed_by, Names};
ghost use Rattle.refusal_order.specs.Decide.{decide, decision_of};
ghost use Rattle.update_session.specs.Outcome.{came_to, outcome_of, passed_with};
ghost use Rattle.update_session.specs.Calls.{common_tests, held, after_accept, changed_to, answered};

use record_copies::held_record;
use record_store_lists::list_change;
use refusals::Refusal;
use update_admission::admit_area;
use update_alterations::alteration_for;
use update_changes::{Change, all_accepted_after, image_of, previous_accepted, update_bank};
use update_committed_set::{missing_images, staged, with_image};

// The five session states; Staging with its bank and the set of committed images (S1).
#[derive(Clone, Copy, Debug, PartialEq, Eq)]
pub enum Session {
    Regular,
    Staging { bank: u32, set: u32 },
    Trial,
    Fallback,
    Restart,
}

// The next session, or on a refusal the session as it was; the verdict; and how many pairs stand in the store list.
#[derive(Clone, Copy, Debug, PartialEq, Eq)]
pub struct Answer {
    pub session: Session,
    pub verdict: Result<(), Refusal>,
    pub stores: usize,
}

impl Answer {
    // Of a call that left that session, and listed so many pairs or refused.
    fn of(session: Session, listed: Result<usize, Refusal>) -> Answer
        ensures { outcome_of result ≡ came_to session listed }
    {
        Answer {
            session,
            verdict: listed.map(|_| ()),
            stores: listed.unwrap_or(0),
        }
    }
}

// Where Accept of image i leads: Regular once every image of the active bank is accepted, else Trial.
fn after_accept(r: &[u8], i: usize) -> Session
    requires { (sound r.now ≡ true) × (i < image_count r.now) }
    ensures { result ≡ after_accept i r.now }
{
    if all_accepted_after(r, i) {
        Session::Regular
    } else {
        Session::Trial
    }
}

impl Session {
    // 20, 23, 21, 22 and 24, in that order.
    fn admit(self, area: &[u8], numbers: usize) -> Result<(), Refusal>
        ensures { decision_of result ≡ decide (common_tests self area.now numbers) }
    {
        admit_area(area, numbers)?;
        if let Session::Staging { bank, set } = self {
            if !staged(held_record(area), bank, set) {
                return Err(Refusal::StagingFault);
            }
        }
        Ok(())
    }

    // The change is made: its stores are listed, and the call leads to `next`.
    fn change(&mut self, next: Session, area: &[u8], change: Change, out: &mut [u32]) -> usize
        requires { Changeable area.now out.old × Names change (held area.now) }
        ensures { (passed_with self.new result, out.new)
            ≡ changed_to (next, changed_by change (held area.now)) area.now out.old }
    {
        let x = alteration_for(held_record(area), change);
        *self = next;
        list_change(area, x, out)
    }

    // Begin, for Regular and Staging (S5, S6). Lists in `out` the stores of the change, and answers how many. The
    // session is the next one then, and on a refusal stays. So with each that follows.
    fn try_begin(&mut self, area: &[u8], out: &mut [u32]) -> Result<usize, Refusal>
        ensures { (came_to self.new result, out.new) ≡ answered begin self.old area.now out.old }
    {
        self.admit(area, out.len())?;
        let (Session::Regular | Session::Staging { .. }) = *self else {
            return Err(Refusal::SessionState);
        };
        let bank = update_bank(held_record(area)) as u32;
        Ok(self.change(Session::Staging { bank, set: 0 }, area, Change::Begin, out))
    }

    // Commit, for Staging, of the image with that type GUID (S7, S8).
    fn try_commit(
        &mut self,
        area: &[u8],
        guid: [u8; 16],
        request: u32,
        out: &mut [u32],
    ) -> Result<usize, Refusal>
        ensures { (came_to self.new result, out.new)
            ≡ answered (commit guid request) self.old area.now out.old }
    {
        self.admit(area, out.len())?;
        let Session::Staging { bank, set } = *self else {
            return Err(Refusal::SessionState);
        };
        let image = image_of(held_record(area), &guid).ok_or(Refusal::NoImage)?;
        let next = Session::Staging {
            bank,
            set: with_image(set, image),
        };
        Ok(self.change(next, area, Change::Commit { image, request }, out))
    }

    // End, for Staging (S9, S10).
    fn try_end(&mut self, area: &[u8], out: &mut [u32]) -> Result<usize, Refusal>
        ensures { (came_to self.new result, out.new) ≡ answered end self.old area.now out.old }
    {
        self.admit(area, out.len())?;
        let Session::Staging { set, .. } = *self else {
            return Err(Refusal::SessionState);
        };
        let count = missing_images(held_record(area), set);
        if count != 0 {
            return Err(Refusal::ImagesMissing(count));
        }
        Ok(self.change(Session::Restart, area, Change::End, out))
    }

    // Cancel, for Staging: it changes nothing in the record, so nothing is listed (S11).
    fn try_cancel(&mut self, area: &[u8], out: &mut [u32]) -> Result<usize, Refusal>
        ensures { (came_to self.new result, out.new) ≡ answered cancel self.old area.now out.old }
    {
        self.admit(area, out.len())?;
        let Session::Staging { .. } = *self else {
            return Err(Refusal::SessionState);
        };
        *self = Session::Regular;
        Ok(0)
    }

    // Accept, for Trial, of the image with that type GUID (S12 to S14).
    fn try_accept(&mut self, area: &[u8], guid: [u8; 16], out: &mut [u32]) -> Result<usize, Refusal>
        ensures { (came_to self.new result, out.new)
            ≡ answered (accept guid) self.old area.now out.old }
    {
        self.admit(area, out.len())?;
        let Session::Trial = *self else {
            return Err(Refusal::SessionState);
        };
        let r = held_record(area);
        let image = image_of(r, &guid).ok_or(Refusal::NoImage)?;
        let next = after_accept(r, image);
        Ok(self.change(next, area, Change::Accept { image }, out))
    }

    // Select previous, for Trial and Fallback (S15, S16).
    fn try_select_previous(&mut self, area: &[u8], out: &mut [u32]) -> Result<usize, Refusal>
        ensures { (came_to self.new result, out.new)
            ≡ answered select_previous self.old area.now out.old }
    {
        self.admit(area, out.len())?;
        let (Session::Trial | Session::Fallback) = *self else {
            return Err(Refusal::SessionState);
        };
        if !previous_accepted(held_record(area)) {
            return Err(Refusal::SessionState);
        }
        Ok(self.change(Session::Restart, area, Change::Exchange, out))
    }

    // Begin (S5, S6). Lists in `out` the stores of the change: pairs of an offset and a word, to be done in list order.
    // Numbers past the list stay, and on a refusal every number does. So with each call.
    pub fn begin(self, area: &[u8], out: &mut [u32]) -> Answer
        ensures { (outcome_of result, out.new) ≡ answered begin self area.now out.old }
    {
        let mut next = self;
        let listed = next.try_begin(area, out);
        Answer::of(next, listed)
    }

    // Commit, of the image with that type GUID (S7, S8).
    pub fn commit(self, area: &[u8], guid: [u8; 16], request: u32, out: &mut [u32]) -> Answer
        ensures { (outcome_of result, out.new) ≡ answered (commit guid request) self area.now out.old }
    {
        let mut next = self;
        let listed = next.try_commit(area, guid, request, out);
        Answer::of(next, listed)
    }

    // End (S9, S10).
    pub fn end(self, area: &[u8], out: &mut [u32]) -> Answer
        ensures { (outcome_of result, out.new) ≡ answered end self area.now out.old }
    {
        let mut next = self;
        let listed = next.try_end(area, out);
        Answer::of(next, listed)
    }

    // Cancel (S11).
    pub fn cancel(self, area: &[u8], out: &mut [u32]) -> Answer
        ensures { (outcome_of result, out.new) ≡ answered cancel self area.now out.old }
    {
        let mut next = self;
        let listed = next.try_cancel(area, out);
        Answer::of(next, listed)
    }

    // Accept, of the image with that type GUID (S12 to S14).
    pub fn accept(self, area: &[u8], guid: [u8; 16], out: &mut [u32]) -> Answer
        ensures { (outcome_of result, out.new) ≡ answered (accept guid) self area.now out.old }
    {
        let mut next = self;
        let listed = next.try_accept(area, guid, out);
        Answer::of(next, listed)
    }

    // Select previous (S15, S16).
    pub fn select_previous(self, area: &[u8], out: &mut [u32]) -> Answer
        ensures { (outcome_of result, out.new) ≡ answered select_previous self area.now out.old }
    {
        let mut next = self;
        let listed = next.try_select_previous(area, out);
        Answer::of(next, listed)
    }
}
