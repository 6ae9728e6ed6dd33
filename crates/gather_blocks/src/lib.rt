// The copy of a scattered list's blocks, in list order, to the place that gathering found (G13, G14).
#![tactic(auto)]

ghost use Rattle.std.specs.Prelude.{◌≡◌, true, ◌+◌};
ghost use Rattle.fields.specs.Number.{put};
ghost use Rattle.gather_descriptors.specs.Reading.{length_of};
ghost use Rattle.gather_descriptors.specs.Scratch.{AllReadable, lengths};
ghost use Rattle.gather_place.specs.Place.{free};
ghost use Rattle.gather_blocks.specs.Blocks.{block, blocks};
ghost use Rattle.gather_blocks.specs.Copy.{Ready};

use gather_descriptors::block_at;

// Copies the block of the descriptor at the address d, if it has one, to the offset q. Answers its length.
fn copy_block(w: &mut [u8], base: u64, d: u64, q: usize) -> usize
    requires { Ready w.old base d q }
    ensures { (result ≡ length_of w.old base d) × (w.new ≡ put w.old q (block w.old base d)) }
{
    let Some(block) = block_at(w, base, d) else {
        return 0;
    };
    // `len` would cut below 0, and take 16 bytes of stack more on firmware
    let n = block.end - block.start;
    w.copy_within(block, q);
    n
}

// Copies every block, in list order, to the free place at the offset p. The descriptors are read again from the window,
// since the place shares no byte with them.
pub fn copy_blocks(w: &mut [u8], base: u64, descriptors: &[u64], p: usize)
    requires { AllReadable w.old base descriptors.now
        × (free w.old base (lengths w.old base descriptors.now) descriptors.now (base + p) ≡ true) }
    ensures { w.new ≡ put w.old p (blocks w.old base descriptors.now) }
{
    let mut q = p;
    for d in descriptors {
        q += copy_block(w, base, *d, q);
    }
}
