// Lists of stores (R22, R23): pairs (offset, word), in a lent slice of 32-bit numbers.
#![tactic(auto)]

ghost use Rattle.std.specs.Prelude.{◌≡◌, [], ◌∷◌, ◌+◌, ◌*◌, ◌≤◌, length};
ghost use Rattle.record_layout.specs.Layout.{copy_size};
ghost use Rattle.record_stores.specs.Added.{Added, word_store};

// How many numbers a store slice must hold: 2,100 pairs (R24).
pub const STORE_NUMBERS: usize = 4200;

// A list at the front of a lent slice, so many pairs long.
#[derive(Drop)]
pub struct StoreList<'a> {
    out: &'a mut [u32],
    pairs: usize,
}

impl<'a> StoreList<'a> {
    // The empty list.
    pub fn new(out: &'a mut [u32]) -> Self
        ensures same_reference { result.out.ghost_name ≡ out.entry.ghost_name }
        ensures empty { (result.out.now ≡ out.old) × (result.pairs ≡ 0) }
    {
        StoreList { out, pairs: 0 }
    }

    // The list of so many pairs that stand at the front of `out` already.
    pub fn behind(out: &'a mut [u32], pairs: usize) -> Self
        ensures same_reference { result.out.ghost_name ≡ out.entry.ghost_name }
        ensures as_it_stands { (result.out.now ≡ out.old) × (result.pairs ≡ pairs) }
    {
        StoreList { out, pairs }
    }

    // How many pairs it has.
    pub fn pairs(&self) -> usize
        ensures { result ≡ self.now.pairs }
    {
        self.pairs
    }

    // One pair more.
    pub fn push(&mut self, offset: u32, word: u32)
        requires { 2 * self.old.pairs + 2 ≤ length self.old.out.now }
        ensures same_reference { self.new.out.ghost_name ≡ self.old.out.ghost_name }
        ensures added { Added self.old.pairs self.new.pairs ((offset, word) ∷ []) self.old.out.now self.new.out.now }
    {
        self.out[2 * self.pairs] = offset;
        self.out[2 * self.pairs + 1] = word;
        self.pairs += 1;
    }

    // The word w at o, if the copy at base holds another there, which is `old`.
    #[tactic(auto, using(crate::proofs::Laid::added_none), unfolding(crate::specs::Added::word_store))]
    pub fn push_differing(&mut self, old: u32, w: u32, base: u32, o: usize)
        requires { (o ≤ copy_size) × (base ≤ copy_size) × (2 * self.old.pairs + 2 ≤ length self.old.out.now) }
        ensures same_reference { self.new.out.ghost_name ≡ self.old.out.ghost_name }
        ensures added { Added self.old.pairs self.new.pairs (word_store base o old w) self.old.out.now self.new.out.now }
        ensures one { self.new.pairs ≤ self.old.pairs + 1 }
    {
        if old != w {
            self.push(base + o as u32, w);
        }
    }
}
