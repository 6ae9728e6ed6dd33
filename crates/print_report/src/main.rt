// The report (T1, T6): reads an area from standard input and prints its lines. One byte more than an area is asked for,
// so that a longer input is told from one of the right length. A read that fails is the input's end, and a write that
// fails is not told.
#![tactic(auto)]

use reading::fill;

fn main(rt: HostRuntime) {
    let mut area = [0u8; 16385];
    let (n, _) = fill(&mut rt.reader(), &mut area);
    let mut text = [0u8; report::REPORT_LIMIT];
    let m = report::report(&area[..n], &mut text);
    let _ = rt.write_all(&text[..m]);
}
