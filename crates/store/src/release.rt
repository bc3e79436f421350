// Free: the block joins the free blocks directly before and after it.
ghost use Rattle.std.specs.Prelude.{◌≡◌, true, cond, ◌+◌, ◌≤◌, ◌<◌, ◌^◌, eqb, length};
ghost use Rattle.block.specs.Layout.{sound, extent_at, stored_total};
ghost use Rattle.block.specs.Walk.{walk_to};
ghost use Rattle.store.specs.State.{state, outcome};
ghost use Rattle.store.specs.Calls.{merge_start, released, totalled, free_checks, free_release, merged, given_back, free};
ghost use Rattle.store.specs.Opened.{seen};

use crate::answer::Refusal;
use crate::entries::clear_entry;
use crate::opening::Opened;
use crate::total::total_fits;
use block::bytes::fill;
use block::header::{FREE, Header, examine, extent_at, kind_at, write_free};
use block::superblock::{stored_total, write_total};
use block::walk::walk_to;
use frame::Pointer;

// What a free does: the object's header place, and from where to where the free block then reaches.
#[derive(Clone, Copy)]
pub struct FreedBlock {
    pub header: u64,
    pub from: u64,
    pub to: u64,
}

// Where the merged block starts: at the block before h, where there is one and it is free.
fn merge_start(image: &[u8], before: u64, h: u64) -> u64
    requires { before + 16 ≤ length image.now }
    ensures { result ≡ merge_start image.now before h }
{
    if before == 0 {
        return h;
    }
    if kind_at(image, before as usize) == FREE {
        before
    } else {
        h
    }
}

// Where the merged block ends: behind the block d at `next`, where it is free.
fn merge_end(next: u64, d: Header) -> u64
    requires { next + d.extent < 2 ^ 64 }
    ensures { result ≡ cond (eqb d.kind 1) (next + d.extent) next }
{
    if d.kind == FREE {
        next + d.extent
    } else {
        next
    }
}

// Row 7 of free, and what is merged with the sound block at h.
fn coalesce(image: &[u8], h: u64) -> Result<FreedBlock, Refusal>
    requires { sound image.now h ≡ true }
    ensures { result ≡ released image.now h (walk_to image.now h) }
{
    let before = walk_to(image, h).ok_or(Refusal::Unsound)?;
    let next = h + extent_at(image, h as usize);
    let from = merge_start(image, before, h);
    if next == image.len() as u64 {
        return Ok(FreedBlock {
            header: h,
            from,
            to: next,
        });
    }
    let d = examine(image, next).ok_or(Refusal::Unsound)?;
    Ok(FreedBlock {
        header: h,
        from,
        to: merge_end(next, d),
    })
}

// Rows 7 and 22 of free, and what is merged with the sound block at h.
fn mergeable(image: &[u8], h: u64) -> Result<FreedBlock, Refusal>
    requires { sound image.now h ≡ true }
    ensures { result ≡ totalled (released image.now h (walk_to image.now h)) image.now }
{
    let block = coalesce(image, h)?;
    if !total_fits(image, extent_at(image, h as usize)) {
        return Err(Refusal::WrongTotal);
    }
    Ok(block)
}

impl Opened<'_> {
    // Rows 10, 11 and 15 of free; the number is the header's place.
    fn base_of(&self, pointer: u64) -> Result<u64, Refusal>
        ensures { result ≡ free_checks pointer (seen self.now) }
    {
        let object = self.locate(pointer)?;
        if Pointer::unpack(pointer).address != object.base {
            return Err(Refusal::NotBase);
        }
        Ok(object.header)
    }

    // The rows of free after 4 and 5.
    fn releasable(&self, pointer: u64) -> Result<FreedBlock, Refusal>
        ensures { result ≡ free_release pointer (seen self.now) }
    {
        let h = self.base_of(pointer)?;
        mergeable(self.image, h)
    }
}

// One free block from `from` to `to`, all else in it zero.
pub fn merge(image: &mut [u8], from: u64, to: u64)
    requires { (from + 16 ≤ to) × (to ≤ length image.old) }
    ensures { image.new ≡ merged image.old from to }
{
    fill(image, from as usize, (to - from) as usize, 0);
    write_free(image, from as usize, to - from);
}

// One free block in the place of the freed one, whose extent is given back to the free total.
fn give_back(image: &mut [u8], block: FreedBlock)
    requires { (block.header + 16 ≤ length image.old) × (block.from + 16 ≤ block.to) × (block.to ≤ length image.old) × (stored_total image.old + extent_at image.old block.header < 2 ^ 64) }
    ensures { image.new ≡ given_back image.old block.header block.from block.to }
{
    let total = stored_total(image) + extent_at(image, block.header as usize);
    merge(image, block.from, block.to);
    write_total(image, total);
}

// Ends the life of the object whose base pointer this is.
pub fn free(image: &mut [u8], table: &mut [u64], pointer: u64) -> Result<u64, Refusal>
    ensures { outcome result image.new table.new ≡ free pointer (state image.old table.old) }
{
    let store = Opened::new(image, table)?;
    let s = store.s;
    let block = store.releasable(pointer)?;
    give_back(image, block);
    clear_entry(table, s, Pointer::unpack(pointer));
    Ok(0)
}
