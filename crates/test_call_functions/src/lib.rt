// The functions u, r and c of crate test_functions, over start-up, repair and the six calls. A kind in a script is one
// less than C's.
#![tactic(auto)]

use c_accept::{meanderpeg_accept, meanderpeg_select_previous};
use c_answer::AnswerNumbers;
use c_begin::{meanderpeg_begin, meanderpeg_cancel};
use c_commit::{meanderpeg_commit, meanderpeg_end};
use c_session::SessionNumbers;
use c_start_up::{meanderpeg_repair, meanderpeg_start_up};
use test_machine::answers::{ANSWERS, answer};
use test_machine::bytes::load;
use test_machine::pop;

const GUID: usize = 239000;

const RESTART: u32 = 4;

// What each number of the store slice is before a call.
const FILLER: u32 = 7;

// How many numbers past the pairs are no longer what they were.
fn altered(out: &[u32], pairs: usize) -> u64 {
    let from = (pairs % 4294967296 * 2).min(out.len());
    out[from..].iter().fold(0, |count: u64, n| {
        count.wrapping_add(u64::from(*n != FILLER))
    })
}

fn low(n: u64) -> u32 {
    (n % 4294967296) as u32
}

// The call of that number, as scripts give it, start-up (its booted bank is the request) and repair among them.
fn call(
    which: u64,
    session: SessionNumbers,
    area: &[u8],
    guid: &[u8; 16],
    request: u32,
    out: &mut [u32],
) -> AnswerNumbers {
    match which {
        0 => meanderpeg_start_up(area, request),
        1 => meanderpeg_repair(area, out),
        2 => meanderpeg_begin(session, area, out),
        3 => meanderpeg_commit(session, area, guid, request, out),
        4 => meanderpeg_end(session, area, out),
        5 => meanderpeg_cancel(session, area, out),
        6 => meanderpeg_accept(session, area, guid, out),
        _ => meanderpeg_select_previous(session, area, out),
    }
}

// The session in answers 1 to 3, as C numbers it.
fn session_before(m: &[u8]) -> SessionNumbers {
    SessionNumbers {
        kind: low(load(m, ANSWERS + 8, 8)).wrapping_add(1),
        bank: low(load(m, ANSWERS + 16, 8)),
        set: low(load(m, ANSWERS + 24, 8)),
    }
}

// The kind as a script has it; Restart where the answer is to name no session, of repair and of start-up refused.
fn kind_after(which: u64, number: u32, kind: u32) -> u32 {
    if which == 1 || which == 0 && number != 0 {
        return kind ^ RESTART;
    }
    kind.wrapping_sub(1)
}

// The answers of a call, but for what it altered. No refusal fills the second slot.
fn answers(which: u64, given: AnswerNumbers) -> [u64; 13] {
    let session = given.session;
    let told = given.told;
    let mut a = [0u64; 13];
    a[0] = u64::from(given.refusal);
    a[1] = u64::from(kind_after(which, given.refusal, session.kind));
    a[2] = u64::from(session.bank);
    a[3] = u64::from(session.set);
    a[4] = given.pairs as u64;
    a[5] = u64::from(told[0] ^ told[1]);
    a
}

fn called(m: &mut [u8], out: &mut [u32], which: u64, n: usize, k: usize, request: u64) {
    if m.len() < n || m.len() < GUID + 16 || out.len() < k {
        return;
    }
    let guid = fields::read_guid(m, GUID);
    let before = session_before(m);
    out.fill(FILLER);
    let given = call(which, before, &m[0..n], &guid, low(request), &mut out[0..k]);
    let mut a = answers(which, given);
    let pairs = a[4] as usize;
    a[6] = altered(out, pairs);
    answer(m, &a);
}

// Start-up, repair and the six calls, with their numbers from the stack.
pub fn entry(w: &mut [u64; 256], m: &mut [u8], out: &mut [u32], c: u8) {
    let x = pop(w);
    let y = pop(w) as usize;
    match c {
        b'u' => called(m, out, 0, y, 0, x),
        b'r' => called(m, out, 1, y, x as usize, 0),
        _ => {
            let n = pop(w) as usize;
            let which = pop(w);
            called(m, out, which, n, y, x);
        }
    }
}
