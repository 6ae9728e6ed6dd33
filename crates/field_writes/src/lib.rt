// Numbers of 16, 32 and 64 bits, little-endian (N101), GUIDs, and parts of another slice, put into byte slices: numbers
// and GUIDs as crate fields reads them. These functions serve the crates above, which have tested where a field stands;
// each asks that of its caller. One for each width, as std's to_le_bytes: see crate fields.
#![tactic(auto)]

ghost use Rattle.std.specs.Prelude.{◌≡◌, ◌+◌, ◌*◌, ◌≤◌, length};
ghost use Rattle.fields.specs.Number.{bytes, put, words_bytes};
ghost use Rattle.fields.specs.Guid.{guid};
ghost use Rattle.fields.specs.Part.{part};

use fields::read64;

// Puts the 16-bit number v at `at`.
pub fn write16(s: &mut [u8], at: usize, v: u16)
    requires { at + 2 ≤ length s.old }
    ensures { s.new ≡ put s.old at (bytes 2 v) }
{
    s[at..at + 2].copy_from_slice(&v.to_le_bytes());
}

// Puts the 32-bit number v at `at`.
pub fn write32(s: &mut [u8], at: usize, v: u32)
    requires { at + 4 ≤ length s.old }
    ensures { s.new ≡ put s.old at (bytes 4 v) }
{
    s[at..at + 4].copy_from_slice(&v.to_le_bytes());
}

// Puts the 64-bit number v at `at`.
pub fn write64(s: &mut [u8], at: usize, v: u64)
    requires { at + 8 ≤ length s.old }
    ensures { s.new ≡ put s.old at (bytes 8 v) }
{
    s[at..at + 8].copy_from_slice(&v.to_le_bytes());
}

// Puts the GUID that stands at `from` in t at `at`, as two numbers: where accesses are aligned, `copy_from_slice` of 16
// bytes asks the linker for memmove.
pub fn write_guid(s: &mut [u8], at: usize, t: &[u8], from: usize)
    requires { (at + 16 ≤ length s.old) × (from + 16 ≤ length t.now) }
    ensures { s.new ≡ put s.old at (guid t.now from) }
{
    write64(s, at, read64(t, from));
    write64(s, at + 8, read64(t, from + 8));
}

// Puts 32-bit numbers at `at`, one behind another.
pub fn write_words(s: &mut [u8], at: usize, words: &[u32])
    requires { at + 4 * length words.now ≤ length s.old }
    ensures { s.new ≡ put s.old at (words_bytes words.now) }
{
    for i in 0..words.len() {
        write32(s, at + 4 * i, words[i]);
    }
}

// Puts the n bytes of t from `from` on at `at`. Byte by byte: `copy_from_slice` of a length that isn't a constant asks
// the linker for memmove.
pub fn write_part(s: &mut [u8], at: usize, t: &[u8], from: usize, n: usize)
    requires { (at + n ≤ length s.old) × (from + n ≤ length t.now) }
    ensures { s.new ≡ put s.old at (part t.now from (from + n)) }
{
    for i in 0..n {
        s[at + i] = t[from + i];
    }
}
