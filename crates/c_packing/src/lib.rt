// The way in from C and Rust (include/meanderpeg.h): packing a capsule. A slice passes as a pointer and a length, a
// number behind a reference as a pointer. The tables are C's arrays of structs, by their bytes.
#![tactic(auto)]

ghost use Rattle.std.specs.Prelude.{◌≡◌};
ghost use Rattle.capsule_contents.specs.Lent.{lent};
ghost use Rattle.capsule_packing_rules.specs.Rules.{sized};
ghost use Rattle.capsule_packer.specs.Packer.{packed};
ghost use Rattle.c_reply.specs.Replied.{replied};

use c_reply::reply;
use capsule_contents::Lending;
use capsule_packer::pack;
use capsule_packing_rules::packed_size;

// Returns 0 and sets how many bytes the capsule would have; or returns the refusal, N50 to N56, and sets nothing (X5).
#[unsafe(no_mangle)]
pub extern "C" fn meanderpeg_capsule_packed_size(
    flags: u32,
    drivers: &[u8],
    driver_table: &[u8],
    images: &[u8],
    vendor_codes: &[u8],
    payload_table: &[u8],
    size: &mut usize,
) -> u32
    ensures { (result, size.new) ≡ replied (sized (lent flags drivers.now driver_table.now
        images.now vendor_codes.now payload_table.now)) size.old }
{
    let lending = Lending {
        flags,
        drivers,
        driver_table,
        images,
        codes: vendor_codes,
        payload_table,
    };
    reply(packed_size(&lending), size)
}

// Returns 0 and sets how many bytes were written at the front of `capsule`; or returns the refusal, N50 to N57, and
// alters nothing (X5, C32).
#[unsafe(no_mangle)]
pub extern "C" fn meanderpeg_capsule_pack(
    flags: u32,
    drivers: &[u8],
    driver_table: &[u8],
    images: &[u8],
    vendor_codes: &[u8],
    payload_table: &[u8],
    capsule: &mut [u8],
    length: &mut usize,
) -> u32
    ensures { ((result, length.new) ≡ replied (packed (lent flags drivers.now driver_table.now
        images.now vendor_codes.now payload_table.now) capsule.old).0
        length.old)
        × (capsule.new ≡ (packed (lent flags drivers.now driver_table.now images.now
        vendor_codes.now payload_table.now) capsule.old).1) }
{
    let lending = Lending {
        flags,
        drivers,
        driver_table,
        images,
        codes: vendor_codes,
        payload_table,
    };
    reply(pack(&lending, capsule), length)
}
