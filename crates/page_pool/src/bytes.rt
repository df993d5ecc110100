//! The bytes of one frame, in a block that holds those of all frames.
ghost use Rattle.std.specs.Prelude.{◌≡◌, ◌≢◌, ◌<◌, ◌≤◌, ◌+◌, ◌*◌, ℕ, length, slice_index};
ghost use Rattle.page_pool.specs.Frames.{IsBeside, placed};

use crate::pool::FRAME_BYTES;

/// Puts some bytes into frame `n` from a place on, and leaves the others.
pub(crate) fn put_bytes(bytes: &mut [u8], n: usize, at: usize, piece: &[u8])
    requires frame { 4096 * n + 4096 ≤ length bytes.old }
    requires room { at + length piece.now ≤ 4096 }
    ensures here { (i : ℕ) → i < length piece.now → slice_index bytes.new (4096 * n + (at + i)) ≡ slice_index piece.now i }
    ensures others { (p : ℕ) → IsBeside (4096 * n + at) (length piece.now) p → slice_index bytes.new p ≡ slice_index bytes.old p }
{
    let start = FRAME_BYTES * n + at;
    for (i, byte) in piece.iter().enumerate() {
        bytes[start + i] = *byte;
    }
}

/// Puts some bytes into frame `n` from a place on, and zeros elsewhere.
pub(crate) fn set_bytes(bytes: &mut [u8], n: usize, at: usize, piece: &[u8])
    requires frame { 4096 * n + 4096 ≤ length bytes.old }
    requires room { at + length piece.now ≤ 4096 }
    ensures filled { (k : ℕ) → k < 4096 → slice_index bytes.new (4096 * n + k) ≡ placed at piece.now k }
    ensures others { (p : ℕ) → IsBeside (4096 * n) 4096 p → slice_index bytes.new p ≡ slice_index bytes.old p }
{
    let start = FRAME_BYTES * n;
    for k in 0..FRAME_BYTES {
        bytes[start + k] = placed_byte(at, piece, k);
    }
}

/// The byte at a place of a page that holds some bytes from another place on.
fn placed_byte(at: usize, piece: &[u8], k: usize) -> u8
    ensures { result ≡ placed at piece.now k }
{
    if k < at {
        return 0;
    }
    if k - at < piece.len() {
        piece[k - at]
    } else {
        0
    }
}

/// Puts the bytes of frame `n` into frame `m`.
pub(crate) fn copy_bytes(bytes: &mut [u8], n: usize, m: usize)
    requires from { 4096 * n + 4096 ≤ length bytes.old }
    requires to { 4096 * m + 4096 ≤ length bytes.old }
    requires apart { n ≢ m }
    ensures copied { (k : ℕ) → k < 4096 → slice_index bytes.new (4096 * m + k) ≡ slice_index bytes.old (4096 * n + k) }
    ensures others { (p : ℕ) → IsBeside (4096 * m) 4096 p → slice_index bytes.new p ≡ slice_index bytes.old p }
{
    let source = FRAME_BYTES * n;
    bytes.copy_within(source..source + FRAME_BYTES, FRAME_BYTES * m);
}
