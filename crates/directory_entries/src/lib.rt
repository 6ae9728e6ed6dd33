// The entries of the directory that is written (I6, I7), put into the output slice. The writer has tested the record,
// the booted bank, the caller's words and the room; each function asks that of its caller.
#![tactic(auto)]

ghost use Rattle.std.specs.Prelude.{◌≡◌, true, ◌+◌, ◌*◌, ◌≤◌, ◌<◌, length};
ghost use Rattle.fields.specs.Number.{put};
ghost use Rattle.record_layout.specs.Layout.{bank_count, image_count};
ghost use Rattle.record_layout.specs.Rules.{sound};
ghost use Rattle.directory_layout.specs.Layout.{directory_header_size, directory_size, entry_start, entry_bytes, entries_bytes, up_to};
ghost use Rattle.directory_entries.specs.Installed.{words_an_image, installed_entry};

use directory_layout::{ENTRY, HEADER, PERMISSIONS_FROM, WORDS};
use field_writes::{write_guid, write_words};
use record_layout::{accepted_word, bank_count, entry_at, image_count};

// Puts the entry of image i at its place.
fn put_entry(r: &[u8], i: usize, booted: usize, words: &[u32], out: &mut [u8])
    requires { (sound r.now ≡ true) × (i < image_count r.now) × (booted < bank_count r.now)
        × (image_count r.now * words_an_image ≤ length words.now) × (directory_size (image_count r.now) ≤ length out.old) }
    ensures { out.new
        ≡ put out.old (entry_start i) (entry_bytes (installed_entry r.now booted words.now i)) }
{
    let banks = bank_count(r);
    let at = HEADER + i * ENTRY;
    let w = i * WORDS;
    let flag = accepted_word(r, banks, i, booted);
    let six = [words[w], words[w + 1], words[w + 2], words[w + 3], flag, 0];
    write_guid(out, at, r, entry_at(banks, i));
    write_words(out, at + PERMISSIONS_FROM, &six);
}

// Puts the entries of all images behind the header's place.
pub fn put_entries(r: &[u8], booted: usize, words: &[u32], out: &mut [u8])
    requires { (sound r.now ≡ true) × (booted < bank_count r.now)
        × (image_count r.now * words_an_image ≤ length words.now) × (directory_size (image_count r.now) ≤ length out.old) }
    ensures { out.new ≡ put out.old directory_header_size
        (entries_bytes (up_to (image_count r.now) (installed_entry r.now booted words.now))) }
{
    for i in 0..image_count(r) {
        put_entry(r, i, booted, words, out);
    }
}
