// The stores that put an altered record into one copy (R28): the version spoilt, the words that differ, the version set
// right. Every word is told anew for each copy; nothing is kept.
// Parted from record_store_lists for the prover: each must-fail edit proves its whole crate again.
#![tactic(auto)]

ghost use Rattle.std.specs.Prelude.{◌≡◌, ◌+◌, ◌-◌, ◌/◌, ◌≤◌, length};
ghost use Rattle.record_layout.specs.Layout.{area_size, copy_size, copy_at};
ghost use Rattle.record_layout.specs.Rules.{crc_of};
ghost use Rattle.record_stores.specs.Stores.{offsets, plan, store_numbers};
ghost use Rattle.record_stores.specs.Added.{Added, stored, Listable, copy_pairs};
ghost use Rattle.record_alterations.specs.Altered.{altered_by, record_with};

use fields::read32;
use record_alterations::Altered;
use record_layout::{COPY, CRC_AT, VERSION_AT};
use record_stores::StoreList;

// The new record's words behind its version where the copy c, which stands at base, holds another.
fn put_words(c: &[u8], base: u32, new: &Altered, list: &mut StoreList)
    requires { Listable c.now new.now.r.now base list.old.pairs (length list.old.out.now) }
    ensures same_reference { list.new.out.ghost_name ≡ list.old.out.ghost_name }
    ensures added { Added list.old.pairs list.new.pairs
        (stored base c.now (record_with new.now.x new.now.r.now) (offsets 8 (length new.now.r.now / 4 - 2)))
        list.old.out.now list.new.out.now }
    ensures few { list.new.pairs ≤ list.old.pairs + (length new.now.r.now / 4 - 2) }
{
    for k in 2..new.r.len() / 4 {
        let o = 4 * k;
        list.push_differing(read32(c, o), new.word(o), base, o);
    }
}

// Lists the stores that put the new record into the copy that stands at base, behind those that the list has. crc is
// the new record's.
pub fn put_copy(area: &[u8], base: usize, new: &Altered, crc: u32, list: &mut StoreList)
    requires { (crc ≡ crc_of (altered_by new.now.x new.now.r.now)) × (length area.now ≡ area_size) × (base ≤ copy_size)
        × (list.old.pairs ≤ copy_pairs) × (store_numbers ≤ length list.old.out.now) }
    ensures same_reference { list.new.out.ghost_name ≡ list.old.out.ghost_name }
    ensures added { Added list.old.pairs list.new.pairs (plan base (copy_at base area.now) (record_with new.now.x new.now.r.now))
        list.old.out.now list.new.out.now }
    ensures few { list.new.pairs ≤ list.old.pairs + copy_pairs }
{
    let c = &area[base..base + COPY];
    let at = base as u32;
    list.push(at + VERSION_AT as u32, 0);
    list.push_differing(read32(c, CRC_AT), crc, at, CRC_AT);
    put_words(c, at, new, list);
    list.push(at + VERSION_AT as u32, new.word(VERSION_AT));
}
