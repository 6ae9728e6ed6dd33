// Repair (R27): the stores that put the record read into the other copy. Refusals 20, 23, 21.
#![tactic(auto)]

ghost use Rattle.std.specs.Prelude.{◌≡◌};
ghost use Rattle.refusal_order.specs.Decide.{reply_of};
ghost use Rattle.update_repair.specs.Repair.{repaired};

use record_copies::read_source;
use record_layout::AREA;
use record_store_lists::list_repair;
use record_stores::STORE_NUMBERS;
use refusals::Refusal;

// Lists in `out` the stores that make the copies sound and equal, and answers how many: pairs of an offset and a word,
// to be done in list order. Numbers past the list stay, and on a refusal every number does.
pub fn repair(area: &[u8], out: &mut [u32]) -> Result<usize, Refusal>
    ensures { (reply_of result, out.new) ≡ repaired area.now out.old }
{
    if area.len() != AREA {
        return Err(Refusal::AreaLength);
    }
    if out.len() < STORE_NUMBERS {
        return Err(Refusal::StoreSlice);
    }
    let from = read_source(area).ok_or(Refusal::NoSoundCopy)?;
    Ok(list_repair(area, from, out))
}
