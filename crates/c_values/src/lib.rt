// The way in from C and Rust (include/meanderpeg.h): the values shown of a capsule's items. A slice passes as a pointer
// and a length, a number or an array behind a reference as a pointer.
// Each function returns 0 and sets its value; or returns the refusal, N10 to N16, and sets nothing (X5).
// Each clause asks the verdict twice: in `replied_by`, and in what it gives, whose branch for a refusal is dead there.
#![tactic(auto)]

ghost use Rattle.std.specs.Prelude.{◌≡◌, IfOk};
ghost use Rattle.capsule_check.specs.Verdict.{verdict_of, item_verdict};
ghost use Rattle.capsule_check.specs.Item.{located};
ghost use Rattle.capsule_values.specs.Shown.{type_guid_of, image_index_of, hardware_instance_of};
ghost use Rattle.c_reply.specs.Replied.{replied_by};

use capsule_values::Values;
use refusals::Refusal;

// Sets all that is shown of item k; or gives the refusal. The three functions below have no `Result` of the values:
// with a refusal its room would be cleared, by memset on AArch64.
fn set_values(s: &[u8], k: usize, values: &mut Values) -> Result<(), Refusal>
    ensures judged { verdict_of result ≡ item_verdict s.now k }
    ensures shown { IfOk result (λ x. (values.new.guid ≡ type_guid_of s.now (located s.now k))
        × (values.new.index ≡ image_index_of s.now (located s.now k))
        × (values.new.instance ≡ hardware_instance_of s.now (located s.now k))) }
{
    *values = capsule_values::values_of(s, k)?;
    Ok(())
}

// The type GUID of item k, zeros of a driver (C21).
#[tactic(auto, unfolding(refusal_order::specs::Decide::reply))]
#[unsafe(no_mangle)]
pub extern "C" fn meanderpeg_capsule_type_guid(s: &[u8], k: usize, guid: &mut [u8; 16]) -> u32
    ensures { (result, guid.new) ≡ replied_by (item_verdict s.now k)
        (type_guid_of s.now (located s.now k)) guid.old }
{
    let mut values = Values::default();
    match set_values(s, k, &mut values) {
        Ok(()) => {
            let shown = values.guid;
            *guid = shown;
            0
        }
        Err(why) => why.number(),
    }
}

// Its image index, 0 of a driver.
#[tactic(auto, unfolding(refusal_order::specs::Decide::reply))]
#[unsafe(no_mangle)]
pub extern "C" fn meanderpeg_capsule_image_index(s: &[u8], k: usize, index: &mut u8) -> u32
    ensures { (result, index.new) ≡ replied_by (item_verdict s.now k)
        (image_index_of s.now (located s.now k)) index.old }
{
    let mut values = Values::default();
    match set_values(s, k, &mut values) {
        Ok(()) => {
            *index = values.index;
            0
        }
        Err(why) => why.number(),
    }
}

// Its hardware instance, 0 of a driver and in version 1.
#[tactic(auto, unfolding(refusal_order::specs::Decide::reply))]
#[unsafe(no_mangle)]
pub extern "C" fn meanderpeg_capsule_hardware_instance(
    s: &[u8],
    k: usize,
    instance: &mut u64,
) -> u32
    ensures { (result, instance.new) ≡ replied_by (item_verdict s.now k)
        (hardware_instance_of s.now (located s.now k)) instance.old }
{
    let mut values = Values::default();
    match set_values(s, k, &mut values) {
        Ok(()) => {
            *instance = values.instance;
            0
        }
        Err(why) => why.number(),
    }
}
