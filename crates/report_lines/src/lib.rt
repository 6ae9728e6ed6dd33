// The report's lines of a sound record (T2 to T5), in a lent slice.
#![tactic(auto)]

ghost use Rattle.std.specs.Prelude.{◌≡◌, true, ◌<◌};
ghost use Rattle.record_layout.specs.Layout.{bank_count, image_count};
ghost use Rattle.record_layout.specs.Rules.{sound};
ghost use Rattle.report_text.specs.Text.{ascending};
ghost use Rattle.report_text.specs.Wrote.{Room, Wrote};
ghost use Rattle.report_lines.specs.Lines.{bank_line, image_line, image_lines, head_lines, record_lines};

use record_layout::{accepted_word, active, bank_count, image_count, previous, size, state};
use report_text::Text;

// The first three lines.
fn head_lines(text: &mut Text, copy: u32, r: &[u8])
    requires { (sound r.now ≡ true) × Room text.old.len (head_lines copy r.now) text.old.out.now }
    ensures same_reference { text.new.out.ghost_name ≡ text.old.out.ghost_name }
    ensures wrote { Wrote text.old.len text.new.len (head_lines copy r.now) text.old.out.now text.new.out.now }
{
    text.line(b"record", &[copy, size(r)]);
    text.line(b"active", &[active(r)]);
    text.line(b"previous", &[previous(r)]);
}

// The line of bank b.
fn bank_line(text: &mut Text, r: &[u8], b: usize)
    requires { (sound r.now ≡ true) × (b < bank_count r.now) × Room text.old.len (bank_line r.now b) text.old.out.now }
    ensures same_reference { text.new.out.ghost_name ≡ text.old.out.ghost_name }
    ensures wrote { Wrote text.old.len text.new.len (bank_line r.now b) text.old.out.now text.new.out.now }
{
    text.line(b"bank", &[b as u32, u32::from(state(r, b))]);
}

// The lines of all banks.
fn bank_lines(text: &mut Text, r: &[u8])
    requires { (sound r.now ≡ true) × Room text.old.len (ascending (bank_count r.now) (bank_line r.now)) text.old.out.now }
    ensures same_reference { text.new.out.ghost_name ≡ text.old.out.ghost_name }
    ensures wrote { Wrote text.old.len text.new.len (ascending (bank_count r.now) (bank_line r.now)) text.old.out.now text.new.out.now }
{
    for b in 0..bank_count(r) {
        bank_line(text, r, b);
    }
}

// The line of image i in bank b.
fn image_line(text: &mut Text, r: &[u8], i: usize, b: usize)
    requires { (sound r.now ≡ true) × (i < image_count r.now) × (b < bank_count r.now)
        × Room text.old.len (image_line r.now i b) text.old.out.now }
    ensures same_reference { text.new.out.ghost_name ≡ text.old.out.ghost_name }
    ensures wrote { Wrote text.old.len text.new.len (image_line r.now i b) text.old.out.now text.new.out.now }
{
    let flag = accepted_word(r, bank_count(r), i, b);
    text.line(b"image", &[i as u32, b as u32, flag]);
}

// The lines of image i in all banks.
fn image_lines(text: &mut Text, r: &[u8], i: usize)
    requires { (sound r.now ≡ true) × (i < image_count r.now) × Room text.old.len (image_lines r.now i) text.old.out.now }
    ensures same_reference { text.new.out.ghost_name ≡ text.old.out.ghost_name }
    ensures wrote { Wrote text.old.len text.new.len (image_lines r.now i) text.old.out.now text.new.out.now }
{
    for b in 0..bank_count(r) {
        image_line(text, r, i, b);
    }
}

// The lines of all images.
fn all_images(text: &mut Text, r: &[u8])
    requires { (sound r.now ≡ true) × Room text.old.len (ascending (image_count r.now) (image_lines r.now)) text.old.out.now }
    ensures same_reference { text.new.out.ghost_name ≡ text.old.out.ghost_name }
    ensures wrote { Wrote text.old.len text.new.len (ascending (image_count r.now) (image_lines r.now)) text.old.out.now text.new.out.now }
{
    for i in 0..image_count(r) {
        image_lines(text, r, i);
    }
}

// The lines of the record read, from copy 0 or 1.
pub fn record_lines(out: &mut [u8], copy: u32, r: &[u8]) -> usize
    requires { (sound r.now ≡ true) × Room 0 (record_lines copy r.now) out.old }
    ensures { Wrote 0 result (record_lines copy r.now) out.old out.new }
{
    let mut text = Text::new(out);
    head_lines(&mut text, copy, r);
    bank_lines(&mut text, r);
    all_images(&mut text, r);
    text.len()
}
