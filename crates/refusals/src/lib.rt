// Every refusal, with its number (N1 to N57).
#![tactic(auto)]

ghost use Rattle.std.specs.Prelude.{◌≡◌};
ghost use Rattle.refusals.specs.Number.{number_of};

use std::error::Error;
use std::fmt;

#[derive(Clone, Copy, Debug, PartialEq, Eq)]
pub enum Refusal {
    // The window's end lies above 2^64.
    WindowEnd,
    // A 257th descriptor would be read.
    DescriptorCount,
    // A descriptor's address is no multiple of 8, or its 16 bytes do not all lie in the window.
    DescriptorAddress,
    // A block does not lie wholly in the window.
    BlockOutside,
    // The lengths add up to more than 16,777,216.
    TotalLength,
    // The lengths add up to 0.
    TotalZero,
    // No start is free for the total.
    NoPlace,
    // The capsule is below 28 bytes.
    CapsuleShort,
    // The capsule's HeaderSize or CapsuleImageSize is at fault.
    CapsuleSizes,
    // The capsule's flags are at fault.
    CapsuleFlags,
    // The capsule has another GUID.
    CapsuleGuid,
    // The capsule's body is below 8 bytes, or its version, count or offsets are at fault.
    CapsuleBody,
    // A payload of the capsule is at fault.
    CapsulePayload,
    // The capsule has no item of that number.
    NoItem,
    // The area is not 16,384 bytes.
    AreaLength,
    // No copy is sound.
    NoSoundCopy,
    // The copies are not both sound and equal.
    NotSoundAndEqual,
    // The store slice is too short.
    StoreSlice,
    // A Staging session whose bank is not the update bank or not 255, or whose set has a bit at or past the image
    // count.
    StagingFault,
    // The session is not among those named for the call, or the previous bank to be selected is not 252.
    SessionState,
    // No entry has that type GUID.
    NoImage,
    // So many images are not in the committed set.
    ImagesMissing(u32),
    // The booted bank is at or past the bank count.
    BootedBank,
    // The caller's words are fewer than four for each image of the record.
    DirectoryWords,
    // The permissions that the caller gives for an image have one of bits 31 to 3.
    DirectoryPermissions,
    // The output slice is shorter than the directory.
    DirectoryRoom,
    // The directory is below 24 bytes.
    DirectoryShort,
    // A field of the directory's header is at fault.
    DirectoryHeader,
    // The directory's length is not that of its header and entries.
    DirectoryLength,
    // An entry of the directory is at fault, or two have the same type GUID.
    DirectoryEntries,
    // The items to pack are more than 64.
    PackItems,
    // A part to pack runs past its slice.
    PackPart,
    // A driver to pack is empty.
    PackEmptyDriver,
    // The version of a payload to pack is neither 1 nor 2.
    PackVersion,
    // A payload to pack has version 1 and a hardware instance but 0.
    PackInstance,
    // The flags to pack are at fault.
    PackFlags,
    // The capsule to pack would be longer than 2^32 - 1 bytes.
    PackSize,
    // The output slice is shorter than the capsule to pack.
    PackRoom,
}

impl Refusal {
    // The number (N104).
    pub fn number(self) -> u32
        ensures { result ≡ number_of self }
    {
        match self {
            Refusal::WindowEnd => 1,
            Refusal::DescriptorCount => 2,
            Refusal::DescriptorAddress => 3,
            Refusal::BlockOutside => 4,
            Refusal::TotalLength => 5,
            Refusal::TotalZero => 6,
            Refusal::NoPlace => 7,
            Refusal::CapsuleShort => 10,
            Refusal::CapsuleSizes => 11,
            Refusal::CapsuleFlags => 12,
            Refusal::CapsuleGuid => 13,
            Refusal::CapsuleBody => 14,
            Refusal::CapsulePayload => 15,
            Refusal::NoItem => 16,
            Refusal::AreaLength => 20,
            Refusal::NoSoundCopy => 21,
            Refusal::NotSoundAndEqual => 22,
            Refusal::StoreSlice => 23,
            Refusal::StagingFault => 24,
            Refusal::SessionState => 25,
            Refusal::NoImage => 26,
            Refusal::ImagesMissing(_) => 27,
            Refusal::BootedBank => 28,
            Refusal::DirectoryWords => 40,
            Refusal::DirectoryPermissions => 41,
            Refusal::DirectoryRoom => 42,
            Refusal::DirectoryShort => 43,
            Refusal::DirectoryHeader => 44,
            Refusal::DirectoryLength => 45,
            Refusal::DirectoryEntries => 46,
            Refusal::PackItems => 50,
            Refusal::PackPart => 51,
            Refusal::PackEmptyDriver => 52,
            Refusal::PackVersion => 53,
            Refusal::PackInstance => 54,
            Refusal::PackFlags => 55,
            Refusal::PackSize => 56,
            Refusal::PackRoom => 57,
        }
    }
}

impl fmt::Display for Refusal {
    fn fmt<W: fmt::Write>(&self, f: &mut fmt::Formatter<W>) -> fmt::Result {
        write!(f, "refused {}", self.number())
    }
}

impl Error for Refusal {}
