// Bytes of the memory: numbers in it, runs of it, and digests of them. What lies outside reads as 0 and is not written.
use fields::read32;

// The byte at `at`.
pub fn byte(s: &[u8], at: usize) -> u8 {
    s.get(at).copied().unwrap_or(0)
}

// The little-endian number of so many bytes, at most eight.
pub fn load(m: &[u8], at: usize, width: usize) -> u64 {
    if 8 < width || m.len() < at {
        return 0;
    }
    let mut v: u64 = 0;
    for i in (0..width).rev() {
        v = v % 72057594037927936 * 256 + u64::from(byte(m, at + i));
    }
    v
}

// Writes the lower bytes of a number, little-endian, where all of them fit.
pub fn store(m: &mut [u8], at: usize, width: usize, value: u64) {
    let n = m.len();
    if n < width || n - width < at {
        return;
    }
    let mut v = value;
    for byte in &mut m[at..at + width] {
        *byte = (v % 256) as u8;
        v /= 256;
    }
}

// The filler with a tint.
pub fn filler(m: &mut [u8], at: usize, count: usize, tint: usize) {
    let n = m.len();
    if n < count || n - count < at {
        return;
    }
    for (i, byte) in m[at..at + count].iter_mut().enumerate() {
        *byte = ((i % 256 * 7 + i / 256 % 256 * 13 + tint % 256) % 256) as u8;
    }
}

// Byte by byte, ascending; where both runs fit.
pub fn copy(m: &mut [u8], from: usize, to: usize, count: usize) {
    let n = m.len();
    if n < count || n - count < from || n - count < to {
        return;
    }
    for i in 0..count {
        m[to + i] = m[from + i];
    }
}

// A digest with a 32-bit number more.
pub fn digest(d: u64, n: u64) -> u64 {
    (d % 4294967291 * 65599 + n % 4294967296 + 1) % 4294967291
}

// The bytes from `at` on, so many; none where they do not all lie inside.
pub fn part(m: &[u8], at: usize, count: usize) -> &[u8] {
    let n = m.len();
    if n < count || n - count < at {
        return &m[..0];
    }
    &m[at..at + count]
}

// A digest with bytes more: their count, then numbers of four bytes, the last of what is left.
pub fn digest_bytes(s: &[u8], before: u64) -> u64 {
    let mut d = digest(before, s.len() as u64);
    for four in s.chunks_exact(4) {
        d = digest(d, u64::from(read32(four, 0)));
    }
    let rest = s.len() % 4;
    if rest == 0 {
        return d;
    }
    digest(d, load(s, s.len() - rest, rest))
}
