// The rules on a capsule's own header, and where its body starts (C1 to C6). Each is a function that answers what its
// definition says.
#![tactic(auto)]

ghost use Rattle.std.specs.Prelude.{◌≡◌, true, ◌≤◌, length};
ghost use Rattle.capsule_header.specs.Header.{sizes_right, flags_right, guid_right, body};

// C5.
pub const FMP_GUID: [u8; 16] = [
    0xed, 0xd5, 0xcb, 0x6d, 0x2d, 0xe8, 0x44, 0x4c, 0xbd, 0xa1, 0x71, 0x94, 0x19, 0x9a, 0xd9, 0x2a,
];

// C4.
const PERSIST: u32 = 0x0001_0000;

const RESET: u32 = 0x0004_0000;

// N11: HeaderSize at both ends, and CapsuleImageSize against the length given.
#[tactic(auto, unfolding(crate::specs::Header::sizes_right, crate::specs::Header::header_size, crate::specs::Header::capsule_image_size))]
pub fn sizes_right(s: &[u8]) -> bool
    requires { 28 ≤ length s.now }
    ensures { result ≡ sizes_right s.now }
{
    let header = fields::read32(s, 16);
    let size = fields::read32(s, 24);
    28 <= header && header <= size && (size as usize) == s.len()
}

// N12: the rule on flags.
pub fn flags_right(flags: u32) -> bool
    ensures { result ≡ flags_right flags }
{
    flags & RESET == 0 || flags & PERSIST != 0
}

// N13: the GUID of firmware management capsules.
pub fn guid_right(s: &[u8]) -> bool
    requires { 28 ≤ length s.now }
    ensures { result ≡ guid_right s.now }
{
    fields::same_guid(s, 0, &FMP_GUID, 0)
}

// The body.
pub fn body_of(s: &[u8]) -> &[u8]
    requires { sizes_right s.now ≡ true }
    ensures { result.now ≡ body s.now }
{
    let at = fields::read32(s, 16) as usize;
    &s[at..]
}
