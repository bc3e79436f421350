// Block headers: reading, testing and writing them.
ghost use Rattle.std.specs.Prelude.{◌≡◌, ◌+◌, ◌-◌, ◌^◌, ◌<◌, ◌≤◌, length};
ghost use Rattle.block.specs.Bytes.{put};
ghost use Rattle.block.specs.Layout.{within, header, free_header, live_header, header_at, extent_at, kind_at, type_at, size_at, cue_at, sound};
ghost use Rattle.block.specs.laws.Soundness.{examined, object_at};

use super::bytes::{read, write};
use std::num::wrapping_sub_u64;

// The kind of a free block, and of a live one. A damaged image may have any other number.
pub const FREE: u64 = 1;

pub const LIVE: u64 = 2;

// A block header's fields.
#[derive(Clone, Copy)]
pub struct Header {
    pub extent: u64,
    pub kind: u64,
    pub ty: u64,
    pub size: u64,
    pub cue: u64,
}

// The extent in the header at h, in bytes.
#[tactic(auto, unfolding(crate::specs::Layout::header_at))]
pub fn extent_at(image: &[u8], h: usize) -> u64
    requires { h + 16 ≤ length image.now }
    ensures { result ≡ extent_at image.now h }
{
    read::<4>(image, h)
}

// Its kind.
#[tactic(auto, unfolding(crate::specs::Layout::header_at))]
pub fn kind_at(image: &[u8], h: usize) -> u64
    requires { h + 16 ≤ length image.now }
    ensures { result ≡ kind_at image.now h }
{
    read::<2>(image, h + 4)
}

// Its type number.
#[tactic(auto, unfolding(crate::specs::Layout::header_at))]
fn type_at(image: &[u8], h: usize) -> u64
    requires { h + 16 ≤ length image.now }
    ensures { result ≡ type_at image.now h }
{
    read::<2>(image, h + 6)
}

// The raw size in it, in bytes.
#[tactic(auto, unfolding(crate::specs::Layout::header_at))]
pub fn size_at(image: &[u8], h: usize) -> u64
    requires { h + 16 ≤ length image.now }
    ensures { result ≡ size_at image.now h }
{
    read::<4>(image, h + 8)
}

// The number of its cue.
#[tactic(auto, unfolding(crate::specs::Layout::header_at))]
fn cue_at(image: &[u8], h: usize) -> u64
    requires { h + 16 ≤ length image.now }
    ensures { result ≡ cue_at image.now h }
{
    read::<4>(image, h + 12)
}

// The fields of the header at h.
#[tactic(auto, unfolding(crate::specs::Layout::header_at))]
pub fn read_header(image: &[u8], h: usize) -> Header
    requires { h + 16 ≤ length image.now }
    ensures { result ≡ header_at image.now h }
{
    Header {
        extent: extent_at(image, h),
        kind: kind_at(image, h),
        ty: type_at(image, h),
        size: size_at(image, h),
        cue: cue_at(image, h),
    }
}

// Whether the header at h, of a free block, is sound.
#[tactic(auto, using(crate::proofs::Headers::free_by), unfolding(crate::specs::Layout::header_at))]
fn free_sound(image: &[u8], h: usize, extent: u64) -> bool
    requires { (16 ≤ h) × (h + 16 ≤ length image.now) × (extent ≡ extent_at image.now h) × (kind_at image.now h ≡ 1) }
    ensures { result ≡ sound image.now h }
{
    let room = (image.len() - h) as u64;
    (16 <= extent)
        & (extent <= room)
        & (type_at(image, h) == 0)
        & (size_at(image, h) == 0)
        & (cue_at(image, h) == 0)
}

// Whether an extent holds a header and `size` bytes, and at most 15 more: one comparison, of a difference that wraps.
fn spare_good(extent: u64, size: u64) -> bool
    requires { size < 2 ^ 32 }
    ensures { result ≡ within (16 + size) (31 + size) extent }
{
    wrapping_sub_u64(extent, 16 + size) <= 15
}

// Whether the header at h, of a live block, is sound. An extent that holds header and size is at least 16.
fn live_sound(image: &[u8], h: usize, extent: u64) -> bool
    requires { (16 ≤ h) × (h + 16 ≤ length image.now) × (extent ≡ extent_at image.now h) × (kind_at image.now h ≡ 2) }
    ensures { result ≡ sound image.now h }
{
    let room = (image.len() - h) as u64;
    let size = size_at(image, h);
    spare_good(extent, size) & (extent <= room)
}

// Whether the header at h is sound. A walk waits for the extent, so it is read before the branch.
#[tactic(auto, using(crate::specs::laws::Soundness::unsound_kind))]
fn is_sound(image: &[u8], h: usize) -> bool
    requires { (16 ≤ h) × (h + 16 ≤ length image.now) }
    ensures { result ≡ sound image.now h }
{
    let extent = extent_at(image, h);
    match kind_at(image, h) {
        FREE => free_sound(image, h, extent),
        LIVE => live_sound(image, h, extent),
        _ => false,
    }
}

// The header at h where it is sound. h may be any number, so it is compared with the length less 16.
pub fn examine(image: &[u8], h: u64) -> Option<Header>
    ensures { result ≡ examined image.now h }
{
    let last = (image.len() as u64).checked_sub(16)?;
    if h < 16 || last < h {
        return None;
    }
    let at = h as usize;
    if is_sound(image, at) {
        Some(read_header(image, at))
    } else {
        None
    }
}

// Whether an image of `len` bytes has room for a header at h, behind its superblock: one comparison, of a difference that wraps.
fn has_room(len: u64, h: u64) -> bool
    requires { 32 ≤ len }
    ensures { result ≡ within 16 (len - 16) h }
{
    wrapping_sub_u64(h, 16) <= len - 32
}

// The raw size of the object whose header is at h, where a sound header of a live block stands there. h may be any number. Over a call of it copy and compare
// would keep their numbers on the stack.
#[inline(always)]
pub fn live_size(image: &[u8], h: u64) -> Option<u64>
    requires { 32 ≤ length image.now }
    ensures { result ≡ object_at image.now h }
{
    if !has_room(image.len() as u64, h) {
        return None;
    }
    let at = h as usize;
    if kind_at(image, at) != LIVE || !live_sound(image, at, extent_at(image, at)) {
        return None;
    }
    Some(size_at(image, at))
}

// Writes a header at h.
#[tactic(auto, using(crate::proofs::Headers::put_fields), unfolding(crate::specs::Layout::header))]
fn write_header(image: &mut [u8], h: usize, d: Header)
    requires { h + 16 ≤ length image.old }
    ensures { image.new ≡ put image.old h (header d.extent d.kind d.ty d.size d.cue) }
{
    write::<4>(image, h, d.extent);
    write::<2>(image, h + 4, d.kind);
    write::<2>(image, h + 6, d.ty);
    write::<4>(image, h + 8, d.size);
    write::<4>(image, h + 12, d.cue);
}

// Writes the header of a free block at h.
pub fn write_free(image: &mut [u8], h: usize, extent: u64)
    requires { h + 16 ≤ length image.old }
    ensures { image.new ≡ put image.old h (free_header extent) }
{
    let d = Header {
        extent,
        kind: FREE,
        ty: 0,
        size: 0,
        cue: 0,
    };
    write_header(image, h, d);
}

// Writes the header of a live block at h.
pub fn write_live(image: &mut [u8], h: usize, extent: u64, ty: u64, size: u64, cue: u64)
    requires { h + 16 ≤ length image.old }
    ensures { image.new ≡ put image.old h (live_header extent ty size cue) }
{
    let d = Header {
        extent,
        kind: LIVE,
        ty,
        size,
        cue,
    };
    write_header(image, h, d);
}
