// The writer of an image directory (I5 to I8): what is installed, by the record read, the booted bank and the caller's
// words. Refusals 20, 21, 28 as start-up gives them, then 40, 41, 42.
#![tactic(auto)]

ghost use Rattle.std.specs.Prelude.{◌≡◌, true, ◌*◌, ◌≤◌, ◌<◌, length};
ghost use Rattle.fields.specs.Number.{put};
ghost use Rattle.refusal_order.specs.Decide.{decide, decision_of, reply_of};
ghost use Rattle.record_layout.specs.Every.{below};
ghost use Rattle.record_layout.specs.Layout.{bank_count, image_count};
ghost use Rattle.record_layout.specs.Rules.{sound};
ghost use Rattle.update_start_up.specs.StartUp.{started_session};
ghost use Rattle.directory_layout.specs.Layout.{permissions_right, directory_bytes, directory_size};
ghost use Rattle.directory_entries.specs.Installed.{words_an_image, word_for};
ghost use Rattle.directory_writer.specs.Writer.{correct_boot_of, installed, directory_tests, written};
ghost use Rattle.directory_writer.specs.Step.{written_from};

use directory_entries::put_entries;
use directory_layout::{ENTRY, HEADER, VERSION, WORDS, permissions_right};
use field_writes::write_words;
use record_copies::{read_record, read_source};
use record_layout::{AREA, image_count};
use refusals::Refusal;
use update_session::Session;
use update_start_up::session_from;

// I5: 0 in Fallback, else 1.
fn correct_boot(session: Session) -> u32
    ensures { result ≡ correct_boot_of session }
{
    match session {
        Session::Fallback => 0,
        _ => 1,
    }
}

// Whether bits 31 to 3 are zero in the permissions of each of so many images.
fn all_permissions_right(words: &[u32], images: usize) -> bool
    requires { images * words_an_image ≤ length words.now }
    ensures { result ≡ below images (λ i. permissions_right (word_for words.now i 0)) }
{
    (0..images).all(|i| permissions_right(words[i * WORDS]))
}

// 40, 41 and 42, in that order.
#[tactic(auto, unfolding(refusal_order::specs::Decide::decide))]
fn admit(r: &[u8], words: &[u32], room: usize) -> Result<(), Refusal>
    requires { sound r.now ≡ true }
    ensures { decision_of result ≡ decide (directory_tests r.now words.now room) }
{
    let images = image_count(r);
    if words.len() < images * WORDS {
        return Err(Refusal::DirectoryWords);
    }
    if !all_permissions_right(words, images) {
        return Err(Refusal::DirectoryPermissions);
    }
    if room < HEADER + images * ENTRY {
        return Err(Refusal::DirectoryRoom);
    }
    Ok(())
}

// Puts the directory of a sound record at the front of `out`, and answers its length.
fn put_directory(r: &[u8], booted: u32, session: Session, words: &[u32], out: &mut [u8]) -> usize
    requires { (sound r.now ≡ true) × (booted < bank_count r.now) × (session ≡ started_session r.now booted)
        × (image_count r.now * words_an_image ≤ length words.now) × (directory_size (image_count r.now) ≤ length out.old) }
    ensures { (result ≡ length (directory_bytes (installed r.now booted words.now)))
        × (out.new ≡ put out.old 0 (directory_bytes (installed r.now booted words.now))) }
{
    let images = image_count(r);
    let six = [
        VERSION,
        HEADER as u32,
        images as u32,
        correct_boot(session),
        ENTRY as u32,
        0,
    ];
    write_words(out, 0, &six);
    put_entries(r, booted as usize, words, out);
    HEADER + images * ENTRY
}

// What a sound record gives.
fn write_from(r: &[u8], booted: u32, words: &[u32], out: &mut [u8]) -> Result<usize, Refusal>
    requires { sound r.now ≡ true }
    ensures { (reply_of result, out.new) ≡ written_from r.now booted words.now out.old }
{
    let session = session_from(r, booted)?;
    admit(r, words, out.len())?;
    Ok(put_directory(r, booted, session, words, out))
}

// Writes the directory of what is installed at the front of `out`; every byte past it stays, and with a refusal every
// byte does. `words` holds four for each image: permissions, maximum size, lowest accepted version, version. How many
// bytes were written, or the refusal.
pub fn write_directory(
    area: &[u8],
    booted: u32,
    words: &[u32],
    out: &mut [u8],
) -> Result<usize, Refusal>
    ensures { (reply_of result, out.new) ≡ written area.now booted words.now out.old }
{
    if area.len() != AREA {
        return Err(Refusal::AreaLength);
    }
    let from = read_source(area).ok_or(Refusal::NoSoundCopy)?;
    write_from(read_record(area, from), booted, words, out)
}
