// The superblock: document 01's "lead-in".
ghost use Rattle.std.specs.Prelude.{◌≡◌, ◌^◌, ◌<◌, ◌≤◌, length};
ghost use Rattle.block.specs.Bytes.{put};
ghost use Rattle.block.specs.Layout.{superblock, slot_exponent, stored_total, with_total};
ghost use Rattle.block.specs.laws.Superblock.{opened};

use super::bytes::{read, write};

// The slot exponent in the superblock.
pub fn slot_exponent(image: &[u8]) -> u64
    requires { 16 ≤ length image.now }
    ensures { result ≡ slot_exponent image.now }
{
    read::<2>(image, 6)
}

// The length of the longest image, in bytes.
const LONGEST: u64 = 1 << 30;

// The slot exponent of any image whose superblock is as laid out. In one piece with its caller before either is compiled: else the compiler keeps the exponent
// twice, and load, store and release take 8 to 16 bytes more of stack.
#[inline(always)]
pub fn open(image: &[u8]) -> Option<u32>
    ensures { result ≡ opened image.now }
{
    let len = image.len() as u64;
    if len < 64 || LONGEST < len {
        return None;
    }
    if (
        read::<4>(image, 0),
        read::<2>(image, 4),
        read::<4>(image, 8),
    ) != (16, 3, len)
    {
        return None;
    }
    let s = slot_exponent(image);
    if s < 6 || 15 < s {
        return None;
    }
    Some(s as u32)
}

// Writes the superblock of an image with slot exponent s and that free total.
#[tactic(auto, using(crate::proofs::Headers::put_fields), unfolding(crate::specs::Layout::superblock))]
pub fn write_superblock(image: &mut [u8], s: u32, total: u64)
    requires { 16 ≤ length image.old }
    ensures { image.new ≡ put image.old 0 (superblock s (length image.old) total) }
{
    let len = image.len() as u64;
    write::<4>(image, 0, 16);
    write::<2>(image, 4, 3);
    write::<2>(image, 6, s as u64);
    write::<4>(image, 8, len);
    write::<4>(image, 12, total);
}

// The free total in the superblock, in bytes: any 32-bit number on a damaged image.
#[tactic(auto, using(crate::specs::laws::Total::total_bound))]
pub fn stored_total(image: &[u8]) -> u64
    requires { 16 ≤ length image.now }
    ensures { (result ≡ stored_total image.now) × (result < 2 ^ 32) }
{
    read::<4>(image, 12)
}

// Writes the free total.
#[tactic(auto, unfolding(crate::specs::Layout::with_total))]
pub fn write_total(image: &mut [u8], total: u64)
    requires { 16 ≤ length image.old }
    ensures { image.new ≡ with_total image.old total }
{
    write::<4>(image, 12, total);
}
