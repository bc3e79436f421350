// The walks over an image's blocks, from block to block by their extents. No sound header stands at the image's end, so a walk asks for it only where none does.
ghost use Rattle.std.specs.Prelude.{◌≡◌};
ghost use Rattle.block.specs.Walk.{first_fit, walk_to, count_blocks};

use super::header::{FREE, LIVE, examine};

// How the search for room ends: at a free block that is long enough, at an unsound header, or at the image's end.
#[derive(Clone, Copy)]
pub enum Fit {
    At(u64),
    Unsound(u64),
    End,
}

// The blocks, counted: live objects, and in bytes the sum of their raw sizes, the sum of the free blocks' extents, and the overhead.
#[derive(Clone, Copy)]
pub struct Counts {
    pub objects: u64,
    pub live: u64,
    pub free: u64,
    pub overhead: u64,
}

// The first block that is unsound, or free with an extent of `need` or more.
#[tactic(auto, using(crate::specs::laws::Turns::block_inside, crate::specs::laws::Turns::block_long))]
pub fn first_fit(image: &[u8], need: u64) -> Fit
    ensures { result ≡ first_fit image.now need }
{
    let len = image.len() as u64;
    let mut h: u64 = 16;
    loop {
        let Some(d) = examine(image, h) else {
            if h == len {
                break Fit::End;
            }
            break Fit::Unsound(h);
        };
        if d.kind == FREE && need <= d.extent {
            break Fit::At(h);
        }
        h += d.extent;
    }
}

// Walks to the block at `target`: the place of the block before it, 0 where there is none; or none where no block is met there.
#[tactic(auto, using(crate::specs::laws::Turns::block_inside, crate::specs::laws::Turns::block_long))]
pub fn walk_to(image: &[u8], target: u64) -> Option<u64>
    ensures { result ≡ walk_to image.now target }
{
    let mut before: u64 = 0;
    let mut h: u64 = 16;
    while let Some(d) = examine(image, h) {
        if target <= h {
            return if h == target { Some(before) } else { None };
        }
        before = h;
        h += d.extent;
    }
    None
}

// Counts the blocks; none where a header is unsound. Free ones have size 0; and what is neither live nor free behind the superblock is overhead, so that no sum is kept of it.
#[tactic(auto, using(crate::specs::laws::Turns::block_inside, crate::specs::laws::Turns::block_long))]
pub fn count_blocks(image: &[u8]) -> Option<Counts>
    ensures { result ≡ count_blocks image.now }
{
    let len = image.len() as u64;
    let mut objects: u64 = 0;
    let mut live: u64 = 0;
    let mut free: u64 = 0;
    let mut h: u64 = 16;
    while let Some(d) = examine(image, h) {
        if d.kind == LIVE {
            objects += 1;
        } else {
            free += d.extent;
        }
        live += d.size;
        h += d.extent;
    }
    if h != len {
        return None;
    }
    Some(Counts {
        objects,
        live,
        free,
        overhead: len - 16 - live - free,
    })
}
