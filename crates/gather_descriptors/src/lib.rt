// The scattered list of descriptors (G2 to G11): refusals 1 to 5. The code goes by offsets in the window, the
// definitions by addresses (crate gather_window).
#![tactic(auto)]

ghost use Rattle.std.specs.Prelude.{◌≡◌, ◌+◌, ◌-◌, ◌^◌, ◌≤◌, length, MatchOption};
ghost use Rattle.gather_descriptors.specs.Reading.{jump_or_end, length_of, walk, reading};
ghost use Rattle.gather_descriptors.specs.Scratch.{ScratchHolds, Readable, BlockIs};

use fields::read64;
use gather_window::{block_fits, descriptor_fits, window_fits};
use refusals::Refusal;
use std::ops::Range;

// How many descriptors are read at most, jumps and the end included (G9).
pub const DESCRIPTOR_LIMIT: usize = 256;

// How much the lengths may add up to (G10).
const TOTAL_LIMIT: u64 = 16777216;

// A list that was read whole: how many descriptors it has, and what their lengths add up to.
#[derive(Clone, Copy, Debug, PartialEq, Eq)]
pub struct Listed {
    pub count: usize,
    pub total: u64,
}

// What the rest of the list gave, as it is. Number by number: what `run` and `jump` hand on whole is copied by memcpy
// on AArch64.
fn handed_on(read: Result<Listed, Refusal>) -> Result<Listed, Refusal>
    ensures { result ≡ read }
{
    let Listed { count, total } = read?;
    Ok(Listed { count, total })
}

// Reads on with the descriptor at the offset `at`: a run of data descriptors, up to a jump or the end.
// `left` descriptors may still be read, so 256 - left addresses stand in `ds` already. It is no loop, since the
// customer names this form: the reader of runs calls that of jumps, and back, and the descriptors still allowed fall.
#[cycle(jump_run)]
fn run(
    w: &[u8],
    base: u64,
    at: usize,
    left: usize,
    total: u64,
    ds: &mut [u64; DESCRIPTOR_LIMIT],
) -> Result<Listed, Refusal>
    requires { (left ≤ 256) × (total ≤ 16777216) × (base + length w.now ≤ 2 ^ 64) × (length ds.old ≡ 256) }
    ensures { ScratchHolds (walk left w.now base (base + at) total)
        (256 - left) ds.old ds.new result }
{
    if left == 0 {
        return Err(Refusal::DescriptorCount);
    }
    if !descriptor_fits(base, w.len(), at) {
        return Err(Refusal::DescriptorAddress);
    }
    let k = DESCRIPTOR_LIMIT - left;
    ds[k] = base + at as u64;
    let size = read64(w, at);
    let address = read64(w, at + 8);
    if size == 0 {
        return handed_on(jump(w, base, address, left - 1, total, ds));
    }
    if !block_fits(base, w.len(), address, size) {
        return Err(Refusal::BlockOutside);
    }
    if TOTAL_LIMIT - total < size {
        return Err(Refusal::TotalLength);
    }
    handed_on(run(w, base, at + 16, left - 1, total + size, ds))
}

// A descriptor of Length 0: the end, or the next run, which begins at the address.
#[cycle(jump_run)]
fn jump(
    w: &[u8],
    base: u64,
    address: u64,
    left: usize,
    total: u64,
    ds: &mut [u64; DESCRIPTOR_LIMIT],
) -> Result<Listed, Refusal>
    requires { (left ≤ 256) × (total ≤ 16777216) × (base + length w.now ≤ 2 ^ 64) × (length ds.old ≡ 256) }
    ensures { ScratchHolds (jump_or_end address total (λ next. walk left w.now base next total))
        (256 - left) ds.old ds.new result }
{
    if address == 0 {
        let count = DESCRIPTOR_LIMIT - left;
        return Ok(Listed { count, total });
    }
    if left == 0 {
        return Err(Refusal::DescriptorCount);
    }
    if address < base {
        return Err(Refusal::DescriptorAddress);
    }
    handed_on(run(w, base, (address - base) as usize, left, total, ds))
}

// Reads the list whose first descriptor stands at `first`. Where it is whole, the addresses of its descriptors, in
// list order, stand first in `ds`.
pub fn read_list(
    w: &[u8],
    base: u64,
    first: u64,
    ds: &mut [u64; DESCRIPTOR_LIMIT],
) -> Result<Listed, Refusal>
    requires { length ds.old ≡ 256 }
    ensures { ScratchHolds (reading w.now base first) 0 ds.old ds.new result }
{
    if !window_fits(base, w.len()) {
        return Err(Refusal::WindowEnd);
    }
    if first < base {
        return Err(Refusal::DescriptorAddress);
    }
    run(w, base, (first - base) as usize, DESCRIPTOR_LIMIT, 0, ds)
}

// Where the block of the descriptor at the address d stands, by offsets in the window, if it has one.
#[tactic(auto, using(crate::proofs::Steps::length_at, crate::proofs::Steps::address_at))]
pub fn block_at(w: &[u8], base: u64, d: u64) -> Option<Range<usize>>
    requires { Readable w.now base d }
    ensures { MatchOption result (length_of w.now base d ≡ 0) (BlockIs w.now base d) }
{
    let at = (d - base) as usize;
    let length = read64(w, at);
    if length == 0 {
        return None;
    }
    let from = (read64(w, at + 8) - base) as usize;
    Some(from..from + length as usize)
}
