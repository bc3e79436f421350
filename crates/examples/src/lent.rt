// The store on the memory that is lent to it, and the calls beside it; each answers with what the program writes.
ghost use Rattle.std.specs.Prelude.{◌<◌, ◌^◌};

use crate::print::{
    Bytes, Counts, Distances, Done, Drawn, Fraction, Order, Overheads, Side, Verdict,
};
use store::Refusal;

// The image and the frame table that are lent at each call.
#[derive(Drop)]
pub struct Store<'a> {
    pub image: &'a mut [u8],
    pub table: &'a mut [u64],
}

impl<'a> Store<'a> {
    // The store on the first `bytes` and `entries`.
    pub fn part(&mut self, bytes: usize, entries: usize) -> Store<'_> {
        let bytes = bytes.min(self.image.len());
        let entries = entries.min(self.table.len());
        let Store { image, table } = self;
        Store {
            image: &mut image[..bytes],
            table: &mut table[..entries],
        }
    }

    // Sets the store up with slots of 2^s bytes.
    pub fn set_up(&mut self, s: u32) -> Result<Done, Refusal> {
        store::set_up(self.image, self.table, s).map(Done)
    }

    // Allocates an object of type 1 for no cue.
    pub fn allocate(&mut self, size: u32) -> Result<Bytes, Refusal> {
        store::allocate(self.image, self.table, size, 1).map(Bytes)
    }

    // Allocates an object of type 1 for a cue.
    pub fn allocate_for(&mut self, size: u32, cue: u32) -> Result<Bytes, Refusal> {
        store::allocate_for(self.image, self.table, size, 1, cue).map(Bytes)
    }

    // Frees an object.
    pub fn free(&mut self, pointer: u64) -> Result<Done, Refusal> {
        store::free(self.image, self.table, pointer).map(Done)
    }

    // Frees a cue's objects: how many there were.
    pub fn release(&mut self, cue: u32) -> Result<u64, Refusal> {
        store::release_cue(self.image, self.table, cue)
    }

    // Moves a pointer.
    pub fn offset(&self, pointer: u64, distance: i64) -> Result<Bytes, Refusal> {
        store::offset(self.image, self.table, pointer, distance).map(Bytes)
    }

    // Reads a number of `width` bytes.
    pub fn load(&self, pointer: u64, width: u64) -> Result<Bytes, Refusal> {
        store::load(self.image, self.table, pointer, width).map(Bytes)
    }

    // Writes a number of `width` bytes.
    pub fn store(&mut self, pointer: u64, width: u64, value: u64) -> Result<Done, Refusal> {
        let table = &mut *self.table;
        store::store(self.image, table, pointer, width, value).map(Done)
    }

    // Writes one byte `length` times.
    pub fn fill(&mut self, pointer: u64, length: u32, byte: u8) -> Result<Done, Refusal> {
        let table = &mut *self.table;
        store::fill(self.image, table, pointer, length, byte).map(Done)
    }

    // Copies `length` bytes.
    pub fn copy(&mut self, target: u64, source: u64, length: u32) -> Result<Done, Refusal> {
        let table = &mut *self.table;
        store::copy(self.image, table, target, source, length).map(Done)
    }

    // Copies a text with its zero byte: how many bytes.
    pub fn copy_text(&mut self, target: u64, source: u64) -> Result<u64, Refusal> {
        let table = &mut *self.table;
        store::copy_text(self.image, table, target, source)
    }

    // The free bytes.
    pub fn free_total(&self) -> Result<u64, Refusal> {
        store::free_total(self.image, self.table)
    }

    // Compares `length` bytes.
    pub fn compare(&self, left: u64, right: u64, length: u32) -> Result<Side, Refusal> {
        store::compare(self.image, self.table, left, right, length).map(Side)
    }

    // How far a pointer is from both ends of its body.
    pub fn distances(&self, pointer: u64) -> Result<Distances, Refusal> {
        let ends = store::distances(self.image, self.table, pointer)?;
        Ok(Distances(ends.from_start, ends.to_end))
    }

    // What is in use.
    pub fn tally(&self) -> Result<Counts, Refusal> {
        let counts = store::tally(self.image, self.table)?;
        Ok(Counts(counts.objects, counts.live, counts.free, counts.overhead))
    }

    // Whether there is an object or a field of this type, by a list of descriptors.
    pub fn has_type(&self, list: &[u8], pointer: u64, wanted: u16) -> Result<Verdict, Refusal> {
        store::has_type(self.image, self.table, list, pointer, wanted).map(Verdict)
    }

    // A load from the state 0.
    pub fn traffic(&mut self, s: u32, draws: u64, log: &mut [u8]) -> Result<Drawn, Refusal> {
        let t = workload::traffic(self.image, self.table, s, 0, draws, log)?;
        Ok(if t.full {
            Drawn::LogFull(t.generator, t.written)
        } else {
            Drawn::All(t.generator, t.written)
        })
    }

    // Overwrites the image from there on; bytes past its end are left out.
    pub fn damage(&mut self, at: usize, bytes: &[u8]) {
        for (place, byte) in self.image.iter_mut().skip(at).zip(bytes) {
            *place = *byte;
        }
    }

    // Overwrites the free total.
    pub fn damage_total(&mut self, total: u32) {
        self.damage(12, &total.to_le_bytes());
    }

    // Overwrites the first table entry.
    pub fn damage_entry(&mut self, value: u64) {
        if let Some(entry) = self.table.first_mut() {
            *entry = value;
        }
    }
}

// The first best order of objects of these sizes.
pub fn order(sizes: &[u32], s: u32, budget: u64) -> Result<Order, placement::Refusal> {
    let p = placement::order(sizes, s, budget)?;
    let places = p.order;
    Ok(Order {
        places,
        count: sizes.len(),
        large: p.large,
        tried: p.tried,
        floor: p.floor,
    })
}

// The overheads of these sizes.
pub fn report(sizes: &[u32]) -> Result<Overheads, overhead::Refusal> {
    let r = overhead::report(sizes)?;
    Ok(Overheads {
        raw: r.raw,
        headed: r.headed,
        padded: r.padded,
        end: r.end,
        headers: Fraction(r.headers.extra, r.headers.over),
        padding: Fraction(r.padding.extra, r.padding.over),
    })
}

// The overheads of so many objects of one size.
pub fn report_of<const N: usize>(size: u32) -> Result<Overheads, overhead::Refusal>
    requires { N < 2 ^ 32 }
{
    let sizes = [size; N];
    report(&sizes)
}
