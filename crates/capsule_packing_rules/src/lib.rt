// The packer's tests 50 to 56, and the size of the capsule that would be packed.
#![tactic(auto)]

ghost use Rattle.std.specs.Prelude.{◌≡◌, ◌<◌};
ghost use Rattle.refusal_order.specs.Decide.{decide, decision_of, reply_of};
ghost use Rattle.capsule_body.specs.Body.{all};
ghost use Rattle.capsule_contents.specs.Contents.{items_of};
ghost use Rattle.capsule_contents.specs.Given.{given};
ghost use Rattle.capsule_contents.specs.Lent.{contents_of, drivers_in, payloads_in};
ghost use Rattle.capsule_contents.specs.Sizes.{cap, item_size, sum};
ghost use Rattle.capsule_packing_rules.specs.Rules.{driver_inside, payload_inside, driver_filled, version_at_right, instance_right};
ghost use Rattle.capsule_packing_rules.specs.Rules.{contents_tests, sized};

use capsule_body::ITEM_LIMIT;
use capsule_contents::{
    DRIVER_ENTRY, IMAGE_AT, INSTANCE_AT, Lending, PAYLOAD_ENTRY, SIZE_CAP, VENDOR_CODE_AT,
    add_capped, item_size, part_inside,
};
use capsule_header::flags_right;
use capsule_payloads::version_right;
use fields::{read32, read64};
use refusals::Refusal;

// The bytes before the list of offsets: the header and the body's version and counts.
pub const FRONT: usize = 36;

// N51, for the drivers.
fn drivers_inside(lending: &Lending) -> bool
    ensures { result ≡ all (driver_inside lending.now.drivers.now lending.now.driver_table.now)
        (drivers_in lending.now.driver_table.now) }
{
    let table = lending.driver_table;
    (0..lending.drivers_in()).all(|k| part_inside(table, DRIVER_ENTRY * k, lending.drivers.len()))
}

// N51, for images and vendor codes.
fn payloads_inside(lending: &Lending) -> bool
    ensures { result ≡ all (payload_inside lending.now.images.now lending.now.codes.now
        lending.now.payload_table.now) (payloads_in lending.now.payload_table.now) }
{
    let table = lending.payload_table;
    (0..lending.payloads_in()).all(|j| {
        let entry = PAYLOAD_ENTRY * j;
        part_inside(table, entry + IMAGE_AT, lending.images.len())
            && part_inside(table, entry + VENDOR_CODE_AT, lending.codes.len())
    })
}

// N52.
fn drivers_filled(lending: &Lending) -> bool
    ensures { result ≡ all (driver_filled lending.now.driver_table.now)
        (drivers_in lending.now.driver_table.now) }
{
    (0..lending.drivers_in()).all(|k| read64(lending.driver_table, DRIVER_ENTRY * k + 8) != 0)
}

// N53.
fn versions_right(lending: &Lending) -> bool
    ensures { result ≡ all (version_at_right lending.now.payload_table.now)
        (payloads_in lending.now.payload_table.now) }
{
    let table = lending.payload_table;
    (0..lending.payloads_in()).all(|j| version_right(read32(table, PAYLOAD_ENTRY * j)))
}

// N54.
fn instances_right(lending: &Lending) -> bool
    ensures { result ≡ all (instance_right lending.now.payload_table.now)
        (payloads_in lending.now.payload_table.now) }
{
    let table = lending.payload_table;
    (0..lending.payloads_in()).all(|j| {
        let entry = PAYLOAD_ENTRY * j;
        read32(table, entry) != 1 || read64(table, entry + INSTANCE_AT) == 0
    })
}

// The sum of the items' sizes, or the cap.
fn items_size(lending: &Lending) -> usize
    ensures { result ≡ cap (sum (items_of (contents_of (given lending.now)))
        (item_size lending.now.driver_table.now lending.now.payload_table.now)) }
{
    let mut total = 0;
    for k in 0..lending.items() {
        total = add_capped(total, item_size(lending, k));
    }
    total
}

// 50 to 55, in that order.
#[tactic(auto, unfolding(refusal_order::specs::Decide::decide, crate::specs::Rules::contents_tests))]
fn admit(lending: &Lending) -> Result<(), Refusal>
    ensures { decision_of result ≡ decide (contents_tests (given lending.now)) }
{
    if ITEM_LIMIT < lending.items() {
        return Err(Refusal::PackItems);
    }
    if !drivers_inside(lending) || !payloads_inside(lending) {
        return Err(Refusal::PackPart);
    }
    if !drivers_filled(lending) {
        return Err(Refusal::PackEmptyDriver);
    }
    if !versions_right(lending) {
        return Err(Refusal::PackVersion);
    }
    if !instances_right(lending) {
        return Err(Refusal::PackInstance);
    }
    if !flags_right(lending.flags) {
        return Err(Refusal::PackFlags);
    }
    Ok(())
}

// How many bytes the capsule would have; or the refusal, 50 to 56, the lowest that applies (C31). The drivers, images
// and vendor codes are parts of three slices; the tables say which (C27).
pub fn packed_size(lending: &Lending) -> Result<usize, Refusal>
    ensures { reply_of result ≡ sized (given lending.now) }
{
    admit(lending)?;
    let size = add_capped(FRONT + 8 * lending.items(), items_size(lending));
    if SIZE_CAP <= size {
        return Err(Refusal::PackSize);
    }
    Ok(size)
}
