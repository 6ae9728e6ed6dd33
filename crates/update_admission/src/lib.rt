// What every call tests of the area and the store slice before it looks at its session: 20, 23, 21 and 22 (N110). The
// tests themselves, which start-up, repair, the report and the directory's writer list too, are in specs/Rows.antt.
#![tactic(auto)]

ghost use Rattle.std.specs.Prelude.{◌≡◌};
ghost use Rattle.refusal_order.specs.Decide.{decide, decision_of};
ghost use Rattle.update_admission.specs.Rows.{area_tests};

use record_copies::{Source, read_source, second_agrees};
use record_layout::AREA;
use record_stores::STORE_NUMBERS;
use refusals::Refusal;

// 20, 23, 21 and 22, in that order.
#[tactic(auto, unfolding(refusal_order::specs::Decide::decide, crate::specs::Rows::area_tests, crate::specs::Rows::repair_tests))]
pub fn admit_area(area: &[u8], numbers: usize) -> Result<(), Refusal>
    ensures { decision_of result ≡ decide (area_tests area.now numbers) }
{
    if area.len() != AREA {
        return Err(Refusal::AreaLength);
    }
    if numbers < STORE_NUMBERS {
        return Err(Refusal::StoreSlice);
    }
    match read_source(area).ok_or(Refusal::NoSoundCopy)? {
        Source::Copy0 if second_agrees(area) => Ok(()),
        _ => Err(Refusal::NotSoundAndEqual),
    }
}
