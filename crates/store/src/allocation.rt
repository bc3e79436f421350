// Allocate: the lowest free block that fits.
ghost use Rattle.std.specs.Prelude.{◌≡◌, true, ◌+◌, ◌≤◌};
ghost use Rattle.block.specs.Layout.{sound, extent_at, stored_total};
ghost use Rattle.store.specs.State.{state, outcome};
ghost use Rattle.store.specs.Calls.{taken_extent, allocate_checks, carved, allotted, allocate_for, allocate};
ghost use Rattle.store.specs.Opened.{seen};
ghost use Rattle.store.specs.laws.Allocate.{site_of};

use crate::answer::Refusal;
use crate::entries::{entry_holds, note};
use crate::opening::Opened;
use block::header::{extent_at, write_free, write_live};
use block::superblock::{stored_total, write_total};
use block::walk::{Fit, first_fit};
use frame::{Tagged, tag_object};

// Where a new object goes: the place of the block that is taken, and the object's pointer with its entry.
#[derive(Clone, Copy)]
pub struct Site {
    pub header: u64,
    pub tagged: Tagged,
}

// The extent of a live block in the free one at h: all of that where a rest would have no room for a header.
fn taken_extent(image: &[u8], h: u64, size: u64) -> u64
    requires { (sound image.now h ≡ true) × (16 + size ≤ extent_at image.now h) }
    ensures { result ≡ taken_extent image.now h size }
{
    let extent = extent_at(image, h as usize);
    let need = 16 + size;
    if extent - need < 16 { extent } else { need }
}

impl Opened<'_> {
    // The rows of allocate after 4 and 5.
    fn allocatable(&self, size: u32) -> Result<Site, Refusal>
        ensures { result ≡ site_of self.now.s size (allocate_checks size (seen self.now)) }
    {
        match first_fit(self.image, 16 + size as u64) {
            Fit::Unsound(_) => Err(Refusal::Unsound),
            Fit::End => Err(Refusal::NoSpace),
            Fit::At(h) => {
                let tagged = tag_object(self.s, h, size as u64);
                if !entry_holds(self.table, tagged, 0) {
                    return Err(Refusal::EntryTaken);
                }
                if stored_total(self.image) < taken_extent(self.image, h, size as u64) {
                    return Err(Refusal::WrongTotal);
                }
                Ok(Site { header: h, tagged })
            }
        }
    }
}

// Makes a live block in the free one at h; a rest that has room for a header stays free.
fn carve(image: &mut [u8], h: u64, size: u64, ty: u64, cue: u64)
    requires { (sound image.old h ≡ true) × (16 + size ≤ extent_at image.old h) }
    ensures { image.new ≡ carved image.old h size ty cue }
{
    let extent = extent_at(image, h as usize);
    let need = 16 + size;
    let rest = extent - need;
    if rest < 16 {
        write_live(image, h as usize, extent, ty, size, cue);
    } else {
        write_live(image, h as usize, need, ty, size, cue);
        write_free(image, (h + need) as usize, rest);
    }
}

// Makes the live block, and takes its extent from the free total.
fn allot(image: &mut [u8], h: u64, size: u64, ty: u64, cue: u64)
    requires { (sound image.old h ≡ true) × (16 + size ≤ extent_at image.old h) × (taken_extent image.old h size ≤ stored_total image.old) }
    ensures { image.new ≡ allotted image.old h size ty cue }
{
    let left = stored_total(image) - taken_extent(image, h, size);
    carve(image, h, size, ty, cue);
    write_total(image, left);
}

// A new object of `size` bytes for the cue; the number is its tagged base.
pub fn allocate_for(
    image: &mut [u8],
    table: &mut [u64],
    size: u32,
    ty: u16,
    cue: u32,
) -> Result<u64, Refusal>
    ensures { outcome result image.new table.new ≡ allocate_for size ty cue (state image.old table.old) }
{
    let site = Opened::new(image, table)?.allocatable(size)?;
    allot(image, site.header, size as u64, ty as u64, cue as u64);
    note(table, site.tagged, site.header);
    Ok(site.tagged.pointer.pack())
}

// A new object of `size` bytes for no cue, which is cue 0.
pub fn allocate(image: &mut [u8], table: &mut [u64], size: u32, ty: u16) -> Result<u64, Refusal>
    ensures { outcome result image.new table.new ≡ allocate size ty (state image.old table.old) }
{
    allocate_for(image, table, size, ty, 0)
}
