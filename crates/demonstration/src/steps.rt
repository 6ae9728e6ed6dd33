// One step of an update: the call, its stores done, and the line that is printed of it.
use refusals::Refusal;
use std::{fmt, io};
use update_session::Session;

// The calls of an update; Commit's is of the image with that type GUID, and accepts it.
#[derive(Clone, Copy, Debug, PartialEq, Eq)]
pub enum Call {
    Begin,
    Commit([u8; 16]),
    End,
}

impl fmt::Display for Call {
    fn fmt<W: fmt::Write>(&self, f: &mut fmt::Formatter<W>) -> fmt::Result {
        match self {
            Call::Begin => write!(f, "Begin"),
            Call::Commit(_) => write!(f, "Commit"),
            Call::End => write!(f, "End"),
        }
    }
}

fn show_report(rt: &impl Print, a: &[u8]) -> io::Result<()> {
    let mut lines = [0u8; 4096];
    let n = report::report(a, &mut lines);
    rt.write_all(lines.get(..n).unwrap_or(&[]))
}

// The next session, or why there is none.
fn show_answer(rt: &impl Print, answer: Result<Session, Refusal>) -> io::Result<()> {
    match answer {
        Ok(Session::Regular) => print!(rt; "Regular"),
        Ok(Session::Staging { bank, set }) => {
            print!(rt; "Staging of bank {bank}, committed set {set}")
        }
        Ok(Session::Trial) => print!(rt; "Trial"),
        Ok(Session::Fallback) => print!(rt; "Fallback"),
        Ok(Session::Restart) => print!(rt; "Restart"),
        Err(why) => print!(rt; "{why}"),
    }
}

// Start-up in that bank, and the report behind it. Where start-up gives no session the demonstration goes on with
// Restart, which every call refuses.
pub fn started(rt: &impl Print, a: &[u8], booted: u32) -> io::Result<Session> {
    print!(rt; "start-up in bank {booted}: ")?;
    let answer = update_start_up::start_up(a, booted);
    show_answer(rt, answer)?;
    println!(rt; "; the report:")?;
    show_report(rt, a)?;
    Ok(answer.unwrap_or(Session::Restart))
}

// Does the first n stores of a list, in their order: each an offset in the area, and the word that goes there.
fn apply(a: &mut [u8], list: &[u32], n: usize) {
    for pair in list.chunks_exact(2).take(n) {
        let at = pair[0] as usize;
        if at + 4 <= a.len() {
            field_writes::write32(a, at, pair[1]);
        }
    }
}

fn show_stores(rt: &impl Print, done: usize, all: usize) -> io::Result<()> {
    print!(rt; "; stores done: {done} of {all}")?;
    if done < all {
        print!(rt; ", then a power cut")?;
    }
    println!(rt;)
}

// Makes a call and does the first stores of its list, so many at most. The answer is the next session.
pub fn step(
    rt: &impl Print,
    a: &mut [u8],
    call: Call,
    session: Session,
    most: usize,
) -> io::Result<Session> {
    let mut list = [0u32; 4200];
    let answer = match call {
        Call::Begin => session.begin(a, &mut list),
        Call::Commit(guid) => session.commit(a, guid, 0, &mut list),
        Call::End => session.end(a, &mut list),
    };
    let done = answer.stores.min(most);
    apply(a, &list, done);
    print!(rt; "{call}: ")?;
    show_answer(rt, answer.verdict.map(|_| answer.session))?;
    show_stores(rt, done, answer.stores)?;
    Ok(answer.session)
}

// Repair with all its stores done. It is given no session and answers none.
pub fn repaired(rt: &impl Print, a: &mut [u8]) -> io::Result<()> {
    let mut list = [0u32; 4200];
    print!(rt; "repair: ")?;
    let answer = update_repair::repair(a, &mut list);
    match answer {
        Ok(_) => print!(rt; "accepted")?,
        Err(why) => print!(rt; "{why}")?,
    }
    let all = answer.unwrap_or(0);
    apply(a, &list, all);
    show_stores(rt, all, all)
}
