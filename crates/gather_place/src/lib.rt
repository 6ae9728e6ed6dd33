// The place for the gathered blocks: the lowest free start (G12). Where the range at a start shares a byte with a block
// or a descriptor, so does the range at every start up to that one's end. So only the window's start and ends of blocks
// and descriptors are tried, each once: at most 512 starts (G16).
#![tactic(auto)]

ghost use Rattle.std.specs.Prelude.{◌≡◌, not, ◌+◌, ◌^◌, ◌≤◌, ◌<◌, length};
ghost use Rattle.gather_descriptors.specs.Scratch.{Readable, AllReadable};
ghost use Rattle.gather_place.specs.Place.{apart, clear_of, clear_of_all, place_for};
ghost use Rattle.gather_place.specs.Search.{NextStart};

use gather_descriptors::block_at;

// Whether the t bytes at the offset p and the n bytes at the offset s share one.
#[tactic(auto, unfolding(crate::specs::Place::apart))]
fn share(p: usize, t: usize, s: usize, n: usize) -> bool
    requires { (p + t < 2 ^ 64) × (s + n < 2 ^ 64) }
    ensures { result ≡ not (apart p t s n) }
{
    p < s + n && s < p + t
}

// Where the t bytes at the offset p share one with the descriptor at the address d or with its block: that one's end.
fn shared_end(w: &[u8], base: u64, d: u64, p: usize, t: usize) -> Option<usize>
    requires { Readable w.now base d × (p + t ≤ length w.now) }
    ensures { NextStart (λ q. clear_of w.now base t (base + q) d) (length w.now) p result }
{
    let at = (d - base) as usize;
    if share(p, t, at, 16) {
        return Some(at + 16);
    }
    let block = block_at(w, base, d)?;
    let n = block.len();
    share(p, t, block.start, n).then_some(block.end)
}

// The same for the first of the descriptors, in list order, that has such an end.
fn next_start(w: &[u8], base: u64, descriptors: &[u64], p: usize, t: usize) -> Option<usize>
    requires { AllReadable w.now base descriptors.now × (p + t ≤ length w.now) }
    ensures { NextStart (λ q. clear_of_all w.now base t (base + q) descriptors.now)
        (length w.now) p result }
{
    for d in descriptors {
        if let Some(end) = shared_end(w, base, *d, p, t) {
            return Some(end);
        }
    }
    None
}

// The address of the lowest free start for t bytes, if there is one.
pub fn find_place(w: &[u8], base: u64, descriptors: &[u64], t: usize) -> Option<u64>
    requires { AllReadable w.now base descriptors.now × (base + length w.now ≤ 2 ^ 64) × (0 < t) }
    ensures { result ≡ place_for w.now base t descriptors.now }
{
    let mut p = 0;
    while t <= w.len() - p {
        let Some(end) = next_start(w, base, descriptors, p, t) else {
            return Some(base + p as u64);
        };
        p = end;
    }
    None
}
