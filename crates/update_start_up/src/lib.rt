// Start-up (S2): the session that an area and the booted bank give. Refusals 20, 21, 28.
#![tactic(auto)]

ghost use Rattle.std.specs.Prelude.{◌≡◌, true};
ghost use Rattle.record_layout.specs.Rules.{sound};
ghost use Rattle.refusal_order.specs.Decide.{reply_of};
ghost use Rattle.update_start_up.specs.StartUp.{started_from, start_up_of};

use record_copies::{read_record, read_source};
use record_layout::{ACCEPTED, AREA, active, bank_count, state};
use refusals::Refusal;
use update_session::Session;

// What a sound record and the booted bank give. It serves directory_writer too.
pub fn session_from(r: &[u8], booted: u32) -> Result<Session, Refusal>
    requires { sound r.now ≡ true }
    ensures { reply_of result ≡ started_from r.now booted }
{
    let bank = booted as usize;
    if bank_count(r) <= bank {
        return Err(Refusal::BootedBank);
    }
    if booted != active(r) {
        return Ok(Session::Fallback);
    }
    if state(r, bank) == ACCEPTED {
        return Ok(Session::Regular);
    }
    Ok(Session::Trial)
}

// Reads the area and answers the session, given the bank that booted. Nothing is changed.
pub fn start_up(area: &[u8], booted: u32) -> Result<Session, Refusal>
    ensures { reply_of result ≡ start_up_of area.now booted }
{
    if area.len() != AREA {
        return Err(Refusal::AreaLength);
    }
    let from = read_source(area).ok_or(Refusal::NoSoundCopy)?;
    session_from(read_record(area, from), booted)
}
