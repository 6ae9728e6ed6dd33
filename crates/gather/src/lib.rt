// Gathering a capsule that lies scattered in a memory window (G1 to G17). The entry is `gather`: refusals 1 to 7.
#![tactic(auto)]

ghost use Rattle.std.specs.Prelude.{◌≡◌, ◌+◌, ◌^◌, ◌≤◌, length};
ghost use Rattle.gather_descriptors.specs.Reading.{whole};
ghost use Rattle.gather_descriptors.specs.Scratch.{AllReadable, lengths};
ghost use Rattle.gather.specs.Gather.{answer_of, finished, gathered};

use gather_blocks::copy_blocks;
use gather_descriptors::{DESCRIPTOR_LIMIT, Listed, read_list};
use gather_place::find_place;
use refusals::Refusal;

// The place's address and how many bytes stand there.
#[derive(Clone, Copy, Debug, PartialEq, Eq)]
pub struct Gathered {
    pub address: u64,
    pub total: u64,
}

// What follows a list that was read whole: 6, then the place or 7, then the copy.
fn finish(w: &mut [u8], base: u64, descriptors: &[u64], total: u64) -> Result<Gathered, Refusal>
    requires { AllReadable w.old base descriptors.now × (total ≡ lengths w.old base descriptors.now)
        × (base + length w.old ≤ 2 ^ 64) }
    ensures { (answer_of result, w.new) ≡ finished w.old base (whole total descriptors.now) }
{
    if total == 0 {
        return Err(Refusal::TotalZero);
    }
    let address = find_place(w, base, descriptors, total as usize).ok_or(Refusal::NoPlace)?;
    copy_blocks(w, base, descriptors, (address - base) as usize);
    Ok(Gathered { address, total })
}

// Gathers the blocks of the list whose first descriptor stands at the address `first`. The window `w` holds the bytes
// from the address `base` on. On success the blocks stand, in list order, at the place answered, and every other byte
// is as it was; on a refusal every byte is as it was.
pub fn gather(w: &mut [u8], base: u64, first: u64) -> Result<Gathered, Refusal>
    ensures { (answer_of result, w.new) ≡ gathered w.old base first }
{
    let mut ds = [0u64; DESCRIPTOR_LIMIT];
    let Listed { count, total } = read_list(w, base, first, &mut ds)?;
    finish(w, base, &ds[..count], total)
}
