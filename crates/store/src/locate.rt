// From a pointer to the header that its tag leads to, and to the bytes behind its address.
ghost use Rattle.std.specs.Prelude.{◌≡◌, Ok, true, false, ◌&&◌, ◌+◌, ◌<◌, ◌^◌, pos};
ghost use Rattle.std.specs.Int.Signed.{le_z};
ghost use Rattle.frame.specs.Pointers.{InRange, unpack};
ghost use Rattle.store.specs.Calls.{reading, read_tag, accessed};
ghost use Rattle.store.specs.laws.Access.{reached_by};
ghost use Rattle.store.specs.Opened.{seen};

use crate::answer::Refusal;
use crate::opening::Opened;
use block::header::live_size;
use frame::{Pointer, entry_index};

// The object that a tag leads to, its header's place, base and raw size in bytes; and how far the pointer's address is past the base, and the end past the
// address.
#[derive(Clone, Copy)]
pub struct Reading {
    pub header: u64,
    pub base: u64,
    pub size: u64,
    pub offset: i64,
    pub remaining: i64,
}

impl Reading {
    // Row 13: n bytes from the address on lie in the body.
    pub fn in_body(self, n: u64) -> bool
        requires { n < 2 ^ 63 }
        ensures { result ≡ le_z (pos 0) self.offset && le_z (pos n) self.remaining }
    {
        if self.offset < 0 {
            return false;
        }
        n as i64 <= self.remaining
    }
}

impl Reading {
    // Row 13 for n bytes through the pointer whose tag was read; the number is the address.
    #[inline(always)]
    fn reach(self, p: Pointer, n: u64) -> Result<u64, Refusal>
        requires { n < 2 ^ 63 }
        ensures { result ≡ reached_by (Ok self) p n }
    {
        if !self.in_body(n) {
            return Err(Refusal::OutOfBounds);
        }
        Ok(p.address)
    }
}

// The object of `size` bytes at h, with the pointer's distances: the one place that measures them.
fn measure(p: Pointer, h: u64, size: u64) -> Reading
    requires { (InRange p) × (h + 16 + size < 2 ^ 63) }
    ensures { result ≡ reading h size p }
{
    let base = h + 16;
    let end = base + size;
    let at = p.address as i64;
    let offset = at - base as i64;
    let remaining = end as i64 - at;
    Reading {
        header: h,
        base: base,
        size: size,
        offset: offset,
        remaining: remaining,
    }
}

impl Opened<'_> {
    // Reads a small-framed tag: rows 10 and 11. The header stands in the pointer's slot, so no table is read.
    #[inline(always)]
    fn small_object(&self, p: Pointer) -> Result<Reading, Refusal>
        requires { (InRange p) × (p.flag ≡ true) }
        ensures { result ≡ read_tag self.now.s p (seen self.now) }
    {
        if !p.slot_tag_good(self.s) {
            return Err(Refusal::BadTag);
        }
        let h = p.frame_start(self.s) + p.tag;
        let size = live_size(self.image, h).ok_or(Refusal::Dangling)?;
        if !p.slot_holds(self.s, size) {
            return Err(Refusal::Dangling);
        }
        Ok(measure(p, h, size))
    }

    // Reads a large-framed tag: rows 10 and 11. An entry may hold any number.
    #[inline(always)]
    fn large_object(&self, p: Pointer) -> Result<Reading, Refusal>
        requires { (InRange p) × (p.flag ≡ false) }
        ensures { result ≡ read_tag self.now.s p (seen self.now) }
    {
        if !p.frame_tag_good(self.s) {
            return Err(Refusal::BadTag);
        }
        let n = p.tag as u32;
        if (self.image.len() as u64) <= p.frame_start(n) {
            return Err(Refusal::Dangling);
        }
        let h = self.table[entry_index(self.s, n, p.address)];
        let size = live_size(self.image, h).ok_or(Refusal::Dangling)?;
        if !p.frame_holds(h, size) {
            return Err(Refusal::Dangling);
        }
        Ok(measure(p, h, size))
    }

    // Reads a tag: rows 10 and 11.
    #[inline(always)]
    pub fn locate(&self, pointer: u64) -> Result<Reading, Refusal>
        ensures { result ≡ read_tag self.now.s (unpack pointer) (seen self.now) }
    {
        let p = Pointer::unpack(pointer);
        if p.flag {
            self.small_object(p)
        } else {
            self.large_object(p)
        }
    }

    // n bytes through a pointer: rows 10, 11 and 13; the number is the address.
    #[inline(always)]
    pub fn access(&self, pointer: u64, n: u64) -> Result<u64, Refusal>
        requires { n < 2 ^ 63 }
        ensures { result ≡ accessed self.now.s (unpack pointer) n (seen self.now) }
    {
        let p = Pointer::unpack(pointer);
        if p.flag {
            self.small_object(p)?.reach(p, n)
        } else {
            self.large_object(p)?.reach(p, n)
        }
    }
}
