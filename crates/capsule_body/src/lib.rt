// The rules on a capsule's body with the list of offsets, and where its items lie (C6 to C12). Each rule is a function
// that answers what its definition says.
#![tactic(auto)]

ghost use Rattle.std.specs.Prelude.{◌≡◌, true, ◌+◌, ◌*◌, ◌^◌, ◌<◌, ◌≤◌, length};
ghost use Rattle.capsule_body.specs.Body.{all, drivers, payloads, items, offset, offset_right, body_right, item_end};
ghost use Rattle.capsule_body.specs.Body.{item as item_bytes};

// How many items there are at most (C9).
pub const ITEM_LIMIT: usize = 64;

// How many drivers the body says it has (C8).
#[tactic(auto, unfolding(crate::specs::Body::drivers))]
pub fn drivers(b: &[u8]) -> usize
    requires { 8 ≤ length b.now }
    ensures { (result ≡ drivers b.now) × (result < 2 ^ 16) }
{
    usize::from(fields::read16(b, 4))
}

// How many payloads, as above.
#[tactic(auto, unfolding(crate::specs::Body::payloads))]
pub fn payloads(b: &[u8]) -> usize
    requires { 8 ≤ length b.now }
    ensures { (result ≡ payloads b.now) × (result < 2 ^ 16) }
{
    usize::from(fields::read16(b, 6))
}

// N14, for one offset of n, in a body that holds the list.
#[tactic(auto, unfolding(crate::specs::Body::offset_right, crate::specs::Body::offset, crate::specs::Body::rises))]
pub fn offset_right(b: &[u8], n: usize, k: usize) -> bool
    requires { (n ≡ items b.now) × (n ≤ 64) × (k < n) × (8 + 8 * n ≤ length b.now) }
    ensures { result ≡ offset_right b.now k }
{
    let at = fields::read64(b, 8 + 8 * k) as usize;
    8 + 8 * n <= at && at < b.len() && (k == 0 || (fields::read64(b, 8 * k) as usize) < at)
}

// Where item k of n starts in the body.
#[tactic(auto, unfolding(crate::specs::Body::offset), using(crate::proofs::Body::few_items, crate::proofs::Body::list_fits))]
pub fn item_start(b: &[u8], n: usize, k: usize) -> usize
    requires { (body_right b.now ≡ true) × (n ≡ items b.now) × (k < n) }
    ensures { result ≡ offset b.now k }
{
    fields::read64(b, 8 + 8 * k) as usize
}

// Where item k of n ends in the body.
#[tactic(auto, unfolding(crate::specs::Body::item_end))]
pub fn item_end(b: &[u8], n: usize, k: usize) -> usize
    requires { (body_right b.now ≡ true) × (n ≡ items b.now) × (k < n) }
    ensures { result ≡ item_end b.now k }
{
    if k + 1 < n {
        item_start(b, n, k + 1)
    } else {
        b.len()
    }
}

// The offsets of all n items.
pub fn offsets_right(b: &[u8], n: usize) -> bool
    requires { (8 ≤ length b.now) × (n ≡ items b.now) × (n ≤ 64) }
    ensures { result ≡ all (offset_right b.now) (items b.now) }
{
    8 + 8 * n <= b.len() && (0..n).all(|k| offset_right(b, n, k))
}

// The body, its payloads aside: N14.
#[tactic(auto, unfolding(crate::specs::Body::body_right, crate::specs::Body::body_version))]
pub fn body_right(b: &[u8]) -> bool
    ensures { result ≡ body_right b.now }
{
    if b.len() < 8 || fields::read32(b, 0) != 1 {
        return false;
    }
    let n = drivers(b) + payloads(b);
    n <= ITEM_LIMIT && offsets_right(b, n)
}

// The bytes of item k of n.
#[tactic(auto, unfolding(crate::specs::Body::item), using(crate::proofs::Body::item_in))]
pub fn item_bytes(b: &[u8], n: usize, k: usize) -> &[u8]
    requires { (body_right b.now ≡ true) × (n ≡ items b.now) × (k < n) }
    ensures { result.now ≡ item_bytes b.now k }
{
    let start = item_start(b, n, k);
    let end = item_end(b, n, k);
    &b[start..end]
}
