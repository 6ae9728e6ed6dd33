// The static library of crate c_values for C and Rust: its functions, with the same clauses, under the names that
// include/meanderpeg.h has.
#![tactic(auto)]

ghost use Rattle.std.specs.Prelude.{◌≡◌};
ghost use Rattle.capsule_check.specs.Verdict.{item_verdict};
ghost use Rattle.capsule_check.specs.Item.{located};
ghost use Rattle.capsule_values.specs.Shown.{type_guid_of, image_index_of, hardware_instance_of};
ghost use Rattle.c_reply.specs.Replied.{replied_by};

// The type GUID of item k, zeros of a driver (C21).
#[unsafe(no_mangle)]
pub extern "C" fn meanderpeg_capsule_type_guid(s: &[u8], k: usize, guid: &mut [u8; 16]) -> u32
    ensures { (result, guid.new) ≡ replied_by (item_verdict s.now k)
        (type_guid_of s.now (located s.now k)) guid.old }
{
    c_values::meanderpeg_capsule_type_guid(s, k, guid)
}

// Its image index, 0 of a driver.
#[unsafe(no_mangle)]
pub extern "C" fn meanderpeg_capsule_image_index(s: &[u8], k: usize, index: &mut u8) -> u32
    ensures { (result, index.new) ≡ replied_by (item_verdict s.now k)
        (image_index_of s.now (located s.now k)) index.old }
{
    c_values::meanderpeg_capsule_image_index(s, k, index)
}

// Its hardware instance, 0 of a driver and in version 1.
#[unsafe(no_mangle)]
pub extern "C" fn meanderpeg_capsule_hardware_instance(
    s: &[u8],
    k: usize,
    instance: &mut u64,
) -> u32
    ensures { (result, instance.new) ≡ replied_by (item_verdict s.now k)
        (hardware_instance_of s.now (located s.now k)) instance.old }
{
    c_values::meanderpeg_capsule_hardware_instance(s, k, instance)
}
