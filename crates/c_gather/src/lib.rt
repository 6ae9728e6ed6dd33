// The way in from C and Rust (include/meanderpeg.h): gathering. A slice passes as a pointer and a length, an array
// behind a reference as a pointer.
#![tactic(auto)]

ghost use Rattle.std.specs.Prelude.{◌≡◌};
ghost use Rattle.gather.specs.Gather.{gathered};
ghost use Rattle.c_gather.specs.Gather.{exported_place};

use gather::Gathered;

// Gathers (G1 to G15). Returns 0 and sets the place's address and the total; or returns the refusal, N1 to N7, and
// alters nothing (N105, X5). The array of two has the layout of C's struct meanderpeg_gathered.
#[unsafe(no_mangle)]
pub extern "C" fn meanderpeg_gather(
    w: &mut [u8],
    base: u64,
    first: u64,
    place: &mut [u64; 2],
) -> u32
    ensures { ((result, place.new), w.new)
        ≡ exported_place (gathered w.old base first) place.old }
{
    match gather::gather(w, base, first) {
        Ok(Gathered { address, total }) => {
            *place = [address, total];
            0
        }
        Err(refusal) => refusal.number(),
    }
}
