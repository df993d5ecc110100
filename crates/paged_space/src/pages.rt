//! Reading and writing the pages of a Space, which stand here as the parts that it keeps.
ghost use Rattle.std.specs.Prelude.{◌≡◌, ◌==◌, ◌≤◌, ◌<◌, ◌+◌, ℕ, Ok, true, false, length, slice_index, slice_set, count_by, IfSome};
ghost use Rattle.rtl_core.specs.Access.{is_size};
ghost use Rattle.rtl_core.specs.Contents.{byte_of, is_writable, put};
ghost use Rattle.page_pool.specs.Frames.{Frames, IsHeld, IsPieceWritten, IsWritten, LacksFrame, spare_of};
ghost use Rattle.paged_space.specs.Accesses.{load_answer};
ghost use Rattle.paged_space.specs.PageTable.{table, IsSound, PageTable, contents_of};
ghost use Rattle.paged_space.specs.Moves.{StandIn};
ghost use Rattle.paged_space.specs.Follows.{Follows, shared_of};
ghost use Rattle.paged_space.specs.Stored.{IsPieceStored};

use crate::search::Extents;
use crate::word::number_in;
use page_pool::{Frame, Pool};
use rtl_core::Order;

/// A number whose bytes lie together on one page; `None` says nothing.
pub(crate) fn load_word(
    extents: &Extents,
    frames: &[Frame],
    writes: &[bool],
    pool: &Pool,
    order: Order,
    bytes: u8,
    a: u32,
) -> Option<u64>
    requires sound { IsSound (table extents.now frames.now writes.now) }
    requires stand { StandIn frames.now pool.now }
    requires size { is_size bytes ≡ true }
    ensures { IfSome result (λ v. load_answer (contents_of (table extents.now frames.now writes.now) pool.now) order bytes a ≡ Ok v) }
{
    match extents.word_of(frames.len(), a, bytes) {
        Some(k) => {
            let page = pool.page(&frames[k]);
            let (_, from) = page.split_at((a % 4096) as usize);
            Some(number_in(from, order, bytes))
        }
        None => None,
    }
}

/// The byte at an address; `None` exactly where none is mapped.
pub(crate) fn load_in(
    extents: &Extents,
    frames: &[Frame],
    writes: &[bool],
    pool: &Pool,
    a: u32,
) -> Option<u8>
    requires sound { IsSound (table extents.now frames.now writes.now) }
    requires stand { StandIn frames.now pool.now }
    ensures { result ≡ byte_of (contents_of (table extents.now frames.now writes.now) pool.now a) }
{
    match extents.place_of(frames.len(), a) {
        Some(k) => Some(pool.read(&frames[k], (a % 4096) as u16)),
        None => None,
    }
}

/// Whether the byte at an address may be written.
pub(crate) fn writable_in(extents: &Extents, frames: &[Frame], writes: &[bool], a: u32) -> bool
    requires { IsSound (table extents.now frames.now writes.now) }
    ensures { (s : Frames) → result ≡ is_writable (contents_of (table extents.now frames.now writes.now) s a) }
{
    match extents.place_of(frames.len(), a) {
        Some(k) => writes[k],
        None => false,
    }
}

/// Writes the byte at an address, where it may be written, and answers whether it may.
pub(crate) fn store_in(
    extents: &Extents,
    frames: &mut [Frame],
    writes: &[bool],
    pool: &mut Pool,
    a: u32,
    v: u8,
) -> bool
    requires sound { IsSound (table extents.now frames.old writes.now) }
    requires stand { StandIn frames.old pool.old }
    requires ready { shared_of (table extents.now frames.old writes.now) pool.old ≤ spare_of pool.old }
    ensures long { length frames.new ≡ length frames.old }
    ensures once { (n : ℕ) → count_by (λ f. f == n) frames.new ≤ 1 }
    ensures written { result ≡ is_writable (contents_of (table extents.now frames.old writes.now) pool.old a) }
    ensures contents { contents_of (table extents.now frames.new writes.now) pool.new ≡ put (contents_of (table extents.now frames.old writes.now) pool.old) a v }
    ensures stand { StandIn frames.new pool.new }
    ensures ready { shared_of (table extents.now frames.new writes.now) pool.new ≤ spare_of pool.new }
    ensures follows { Follows (table extents.now frames.old writes.now) (table extents.now frames.new writes.now) pool.old pool.new }
{
    match extents.place_of(frames.len(), a) {
        Some(k) => {
            if !writes[k] {
                return false;
            }
            write_page(frames, pool, k, (a % 4096) as u16, v)
        }
        None => false,
    }
}

/// Writes some bytes that lie together on one page, and answers whether it did.
pub(crate) fn store_piece_in(
    extents: &Extents,
    frames: &mut [Frame],
    writes: &[bool],
    pool: &mut Pool,
    a: u32,
    piece: &[u8],
) -> bool
    requires sound { IsSound (table extents.now frames.old writes.now) }
    requires stand { StandIn frames.old pool.old }
    requires ready { shared_of (table extents.now frames.old writes.now) pool.old ≤ spare_of pool.old }
    requires some { 1 ≤ length piece.now }
    requires few { length piece.now ≤ 8 }
    ensures long { length frames.new ≡ length frames.old }
    ensures stored { IsPieceStored (table extents.now frames.old writes.now) (table extents.now frames.new writes.now) pool.old pool.new a piece.now result }
{
    match extents.word_of(frames.len(), a, piece.len() as u8) {
        Some(k) => {
            if !writes[k] {
                return false;
            }
            write_page_piece(frames, pool, k, (a % 4096) as usize, piece)
        }
        None => false,
    }
}

/// Writes some bytes of one page.
fn write_page_piece(
    frames: &mut [Frame],
    pool: &mut Pool,
    k: usize,
    at: usize,
    piece: &[u8],
) -> bool
    requires page { k < length frames.old }
    requires held { IsHeld pool.old (slice_index frames.old k) }
    requires within { at + length piece.now ≤ 4096 }
    ensures frames { frames.new ≡ slice_set frames.old k (slice_index frames.new k) }
    ensures written { result ≡ true → IsPieceWritten pool.old pool.new (slice_index frames.old k) (slice_index frames.new k) at piece.now }
    ensures refused { result ≡ false → LacksFrame pool.old (slice_index frames.old k) }
{
    let frame = &mut frames[k];
    pool.write_piece(frame, at, piece)
}

/// Writes a byte of one page.
fn write_page(frames: &mut [Frame], pool: &mut Pool, k: usize, at: u16, v: u8) -> bool
    requires page { k < length frames.old }
    requires held { IsHeld pool.old (slice_index frames.old k) }
    requires within { at < 4096 }
    ensures frames { frames.new ≡ slice_set frames.old k (slice_index frames.new k) }
    ensures written { result ≡ true → IsWritten pool.old pool.new (slice_index frames.old k) (slice_index frames.new k) at v }
    ensures refused { result ≡ false → LacksFrame pool.old (slice_index frames.old k) }
{
    let frame = &mut frames[k];
    pool.write(frame, at, v)
}
