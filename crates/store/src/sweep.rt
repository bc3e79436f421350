// Release: all live objects of one cue go together.
ghost use Rattle.std.specs.Prelude.{◌≡◌, true, cond, ◌&&◌, ◌+◌, ◌<◌, ◌≤◌, ◌^◌, eqb, length};
ghost use Rattle.frame.specs.Tags.{wrapper, entry_of};
ghost use Rattle.block.specs.Layout.{sound};
ghost use Rattle.block.specs.Walk.{is_of_cue};
ghost use Rattle.store.specs.State.{state, outcome, returned};
ghost use Rattle.store.specs.Calls.{opening, entry_holds, merge_end, release_checks, cue_pointers, free_each, release_cue};
ghost use Rattle.store.specs.Opened.{seen};
ghost use Rattle.store.specs.laws.Sweep.{settled};

use crate::answer::Refusal;
use crate::entries::{entry_holds, note};
use crate::opening::Opened;
use crate::release::merge;
use crate::total::total_fits;
use block::header::{FREE, Header, LIVE, examine, extent_at, kind_at, read_header};
use block::superblock::{stored_total, write_total};
use frame::tag_object;

// Whether the header is that of a live block of the cue.
fn is_of_cue(d: Header, cue: u64) -> bool
    ensures { result ≡ is_of_cue cue d }
{
    d.kind == LIVE && d.cue == cue
}

// Row 21 up to the object at h: those before it are held, and so is this one.
fn still_held(held: bool, table: &[u64], s: u32, h: u64, size: u64) -> bool
    requires { (s < 16) × (16 ≤ h) × (h + 16 + size ≤ 2 ^ 30) × (s < wrapper h size → entry_of s h size < length table.now) }
    ensures { result ≡ held && entry_holds s h size h table.now }
{
    held && entry_holds(table, tag_object(s, h, size), h)
}

impl Opened<'_> {
    // The rows of release after 4 and 5, in one walk over the whole image; the number is how many objects the cue has.
    fn cue_releasable(&self, cue: u64) -> Result<u64, Refusal>
        ensures { result ≡ release_checks cue (seen self.now) }
    {
        let image = self.image;
        let mut held = true;
        let mut count: u64 = 0;
        let mut given: u64 = 0;
        let mut h: u64 = 16;
        while let Some(d) = examine(image, h) {
            if is_of_cue(d, cue) {
                count += 1;
                given += d.extent;
                held = still_held(held, self.table, self.s, h, d.size);
            }
            h += d.extent;
        }
        if h != image.len() as u64 {
            return Err(Refusal::Unsound);
        }
        if !held {
            return Err(Refusal::EntryLost);
        }
        if !total_fits(image, given) {
            return Err(Refusal::WrongTotal);
        }
        Ok(count)
    }
}

// Where a free of the block that ends at `next` would merge to: behind the block there, where it is free.
fn merge_end_at(image: &[u8], next: u64) -> u64
    requires { (next ≤ length image.now) × (next < length image.now → sound image.now next ≡ true) }
    ensures { result ≡ merge_end image.now next }
{
    if next == image.len() as u64 {
        return next;
    }
    let at = next as usize;
    if kind_at(image, at) == FREE {
        next + extent_at(image, at)
    } else {
        next
    }
}

// Where a free directly behind the block d at h would merge from: from h where d is free, from `next` where it is not.
fn merge_start_behind(h: u64, next: u64, d: Header) -> u64
    ensures { result ≡ cond (eqb d.kind 1) h next }
{
    if d.kind == FREE { h } else { next }
}

// Writes the run from `from` to h, where there is one, as one free block.
fn settle(image: &mut [u8], run: bool, from: u64, h: u64)
    requires { (run ≡ true → from + 16 ≤ h) × (h ≤ length image.old) }
    ensures { image.new ≡ settled run image.old from h }
{
    if run {
        merge(image, from, h);
    }
}

// Frees the objects of the cue in one pass: a run of neighbours is kept back, and written once, where it ends; the free total is written last.
fn sweep(image: &mut [u8], table: &mut [u64], s: u32, cue: u64)
    requires { (opening (state image.old table.old) ≡ Ok s) × (returned (release_checks cue (state image.old table.old)) ≡ 0) }
    ensures { state image.new table.new ≡ free_each (cue_pointers cue image.old) (state image.old table.old) }
{
    let len = image.len() as u64;
    // where a free of the block at h would merge from, and whether a run from there to h is kept back
    let mut from: u64 = 16;
    let mut run = false;
    let mut total = stored_total(image);
    let mut h: u64 = 16;
    while h != len {
        let d = read_header(image, h as usize);
        let next = h + d.extent;
        if is_of_cue(d, cue) {
            note(table, tag_object(s, h, d.size), 0);
            total = total + d.extent;
            run = true;
            h = merge_end_at(image, next);
        } else {
            // before the write: so fewer numbers are kept over it, and less stack is taken
            let start = merge_start_behind(h, next, d);
            settle(image, run, from, h);
            from = start;
            run = false;
            h = next;
        }
    }
    settle(image, run, from, len);
    write_total(image, total);
}

// Ends the lives of all objects of the cue; the number is how many they were.
pub fn release_cue(image: &mut [u8], table: &mut [u64], cue: u32) -> Result<u64, Refusal>
    ensures { outcome result image.new table.new ≡ release_cue cue (state image.old table.old) }
{
    let store = Opened::new(image, table)?;
    let s = store.s;
    let n = store.cue_releasable(cue as u64)?;
    sweep(image, table, s, cue as u64);
    Ok(n)
}
