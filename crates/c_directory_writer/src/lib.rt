// The way in from C and Rust (include/meanderpeg.h): writing an image directory. A slice passes as a pointer and a
// length, a number behind a reference as a pointer.
#![tactic(auto)]

ghost use Rattle.std.specs.Prelude.{◌≡◌};
ghost use Rattle.directory_writer.specs.Writer.{written};
ghost use Rattle.c_reply.specs.Replied.{replied};

use c_reply::reply;
use directory_writer::write_directory;

// Returns 0 and sets how many bytes were written at the front of `directory`; or returns the refusal, N20, N21, N28 or
// N40 to N42, and alters nothing (X5, I8). A reader wants exactly so many bytes.
#[unsafe(no_mangle)]
pub extern "C" fn meanderpeg_directory_write(
    area: &[u8],
    booted: u32,
    words: &[u32],
    directory: &mut [u8],
    length: &mut usize,
) -> u32
    ensures { ((result, length.new) ≡ replied
        (written area.now booted words.now directory.old).0 length.old)
        × (directory.new ≡ (written area.now booted words.now directory.old).1) }
{
    reply(write_directory(area, booted, words, directory), length)
}
