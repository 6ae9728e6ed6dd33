// The packer of capsules (C26 to C32): a capsule of tight form from drivers, images and vendor codes in three slices.
// Refusals 50 to 57.
#![tactic(auto)]

ghost use Rattle.std.specs.Prelude.{◌≡◌};
ghost use Rattle.refusal_order.specs.Decide.{reply_of};
ghost use Rattle.capsule_contents.specs.Given.{given};
ghost use Rattle.capsule_packer.specs.Packer.{packed};

use capsule_contents::Lending;
use capsule_packed_items::put_capsule;
use capsule_packing_rules::packed_size;
use refusals::Refusal;

// Packs a capsule at the front of `out`, and answers its length n; every byte past it stays, and with a refusal, 50 to
// 57, the lowest that applies, every byte does. The capsule is out[..n]: of all of a longer slice a reader says 11. The
// drivers, images and vendor codes are parts of three slices, and the tables say which (C27): 16 bytes a driver, 64 a
// payload, and a shorter rest is no entry.
pub fn pack(lending: &Lending, out: &mut [u8]) -> Result<usize, Refusal>
    ensures { (reply_of result, out.new) ≡ packed (given lending.now) out.old }
{
    let size = packed_size(lending)?;
    if out.len() < size {
        return Err(Refusal::PackRoom);
    }
    put_capsule(lending, size, out);
    Ok(size)
}
