// The image directory's layout (I1 to I4): its lengths and where its fields stand. What it holds and its bytes are
// defined in specs/; it is written and read in the crates above.
#![tactic(auto)]

ghost use Rattle.std.specs.Prelude.{◌≡◌};
ghost use Rattle.directory_layout.specs.Layout.{permissions_right};

// The lengths of the header, behind which the entries start, and of an entry.
pub const HEADER: usize = 24;

pub const ENTRY: usize = 40;

// How long a type GUID is, with which an entry starts.
pub const GUID: usize = 16;

// The version that is written and read.
pub const VERSION: u32 = 2;

// Where the fields of the header stand.
pub const VERSION_AT: usize = 0;

pub const ARRAY_OFFSET_AT: usize = 4;

pub const IMAGES_AT: usize = 8;

pub const CORRECT_BOOT_AT: usize = 12;

pub const ENTRY_SIZE_AT: usize = 16;

pub const RESERVED_AT: usize = 20;

// In an entry, where the fields behind the type GUID stand.
pub const PERMISSIONS_FROM: usize = 16;

pub const MAXIMUM_SIZE_FROM: usize = 20;

pub const LOWEST_ACCEPTED_VERSION_FROM: usize = 24;

pub const VERSION_FROM: usize = 28;

pub const ACCEPTED_FROM: usize = 32;

pub const RESERVED_FROM: usize = 36;

// How many words the caller gives for an image: permissions, maximum size, lowest accepted version, version.
pub const WORDS: usize = 4;

// I4: bits 31 to 3 of permissions are zero. It serves the writer and the reader.
pub fn permissions_right(p: u32) -> bool
    ensures { result ≡ permissions_right p }
{
    p / 8 == 0
}
