// The memory window (G1): what lies in it. Addresses can reach 2^64, so the code goes by offsets in the window; the
// definitions go by addresses.
// The bytes and their base stay two parameters: the copy wants the bytes as `&mut [u8]`, so `gather` would have to
// build a struct of both anew for each reader that it calls, and the copy for each block.
#![tactic(auto)]

ghost use Rattle.std.specs.Prelude.{◌≡◌, ◌+◌, not};
ghost use Rattle.gather_window.specs.Window.{past_window_end, within, descriptor_fits};

// Whether the window ends at or below 2^64 (N1).
pub fn window_fits(base: u64, len: usize) -> bool
    ensures { result ≡ not (past_window_end base len) }
{
    len == 0 || base <= u64::MAX - (len - 1) as u64
}

// Whether a block lies wholly in the window (G8).
#[tactic(auto, unfolding(crate::specs::Window::within))]
pub fn block_fits(base: u64, len: usize, address: u64, size: u64) -> bool
    ensures { result ≡ within base len address size }
{
    let n = len as u64;
    base <= address && address - base <= n && size <= n - (address - base)
}

// Whether a descriptor may stand at the offset `at`: its address, not its offset, is a multiple of 8 (G7).
#[tactic(auto, unfolding(crate::specs::Window::within, crate::specs::Window::descriptor_fits))]
pub fn descriptor_fits(base: u64, len: usize, at: usize) -> bool
    ensures { result ≡ descriptor_fits base len (base + at) }
{
    16 <= len && at <= len - 16 && (base % 8 + at as u64 % 8) % 8 == 0
}
