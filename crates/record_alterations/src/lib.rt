// A record with some of its words and its CRC anew (S17). The new record stands nowhere in memory: each of its words is
// told from the old record and the alteration.
#![tactic(auto)]

ghost use Rattle.std.specs.Prelude.{◌≡◌, true};
ghost use Rattle.fields.specs.Guid.{same};
ghost use Rattle.fields.specs.Number.{Bytes, le};
ghost use Rattle.record_layout.specs.Layout.{header_size, version_at, bank_count};
ghost use Rattle.record_layout.specs.Rules.{crc_of, sound};
ghost use Rattle.record_alterations.specs.Altered.{altered_by, record_with, Unaltered, Alterable, Word};

use fields::read32;
use record_crc::{ALL_ONES, crc_table, with_word};
use record_layout::{
    ACCEPTED_FROM, ACTIVE_AT, BANK_ENTRY, BANKS_FROM, HEADER, PREVIOUS_AT, STATES_AT, VERSION_AT,
    active, bank_count, entry_size, previous, states,
};

// What a call alters: the words of active, previous and the bank states, and the accepted word of `count` images from
// `first` on in one bank.
#[derive(Clone, Copy)]
pub struct Alteration {
    pub active: u32,
    pub previous: u32,
    pub states: u32,
    pub bank: usize,
    pub first: usize,
    pub count: usize,
    pub flag: u32,
}

// The alteration that alters nothing of a sound record.
pub fn unaltered(r: &[u8]) -> Alteration
    requires { sound r.now ≡ true }
    ensures { Unaltered result r.now }
{
    Alteration {
        active: active(r),
        previous: previous(r),
        states: states(r),
        bank: 0,
        first: 0,
        count: 0,
        flag: 0,
    }
}

// The record r, of so many banks, with the alteration x made in it.
#[derive(Clone, Copy)]
pub struct Altered<'a> {
    pub r: &'a [u8],
    banks: usize,
    x: Alteration,
    pub ghost alterable: { Alterable x r.now banks },
    pub ghost bytes: { Bytes r.now },
}

impl<'a> Altered<'a> {
    // x, to be made in r.
    pub fn new(r: &'a [u8], x: Alteration) -> Self
        requires { Alterable x r.now (bank_count r.now) }
        ensures { (result.r.now ≡ r.now) × (result.x ≡ x) }
    {
        Altered {
            r,
            banks: bank_count(r),
            x,
        }
    }

    // Its word at o, among the entries: the flag where it is the accepted word of an image that x names.
    fn entry_word(&self, o: usize) -> u32
        requires { Word self.now.r.now header_size o }
        ensures { result ≡ le 4 (altered_by self.now.x self.now.r.now) o }
    {
        let size = entry_size(self.banks);
        let image = (o - HEADER) / size;
        let named = self.x.first..self.x.first + self.x.count;
        if (o - HEADER) % size == BANKS_FROM + BANK_ENTRY * self.x.bank + ACCEPTED_FROM
            && named.contains(&image)
        {
            return self.x.flag;
        }
        read32(self.r, o)
    }

    // Its word at o, its CRC apart.
    pub fn word(&self, o: usize) -> u32
        requires { Word self.now.r.now version_at o }
        ensures { result ≡ le 4 (altered_by self.now.x self.now.r.now) o }
    {
        match o {
            ACTIVE_AT => self.x.active,
            PREVIOUS_AT => self.x.previous,
            STATES_AT => self.x.states,
            _ if o < HEADER => read32(self.r, o),
            _ => self.entry_word(o),
        }
    }

    // Its CRC (R4).
    pub fn crc(&self) -> u32
        ensures { result ≡ crc_of (altered_by self.now.x self.now.r.now) }
    {
        let t = crc_table();
        let mut q: u32 = ALL_ONES;
        for k in 1..self.r.len() / 4 {
            q = with_word(&t, q, self.word(4 * k));
        }
        q ^ ALL_ONES
    }

    // Whether it is r, which is sound: then no word differs behind the CRC.
    pub fn is_unchanged(&self) -> bool
        requires { sound self.now.r.now ≡ true }
        ensures { result ≡ same self.now.r.now (record_with self.now.x self.now.r.now) }
    {
        (1..self.r.len() / 4).all(|k| read32(self.r, 4 * k) == self.word(4 * k))
    }
}
