// Rows 4 and 5, with which every call but set-up begins.
ghost use Rattle.std.specs.Prelude.{◌≡◌, Ok};
ghost use Rattle.store.specs.State.{state};
ghost use Rattle.store.specs.Calls.{opening};

use crate::answer::Refusal;
use block::superblock::open;
use frame::used_entries;

// An image and a table that pass rows 4 and 5, lent to be read, with the slot exponent.
#[derive(Clone, Copy)]
pub struct Opened<'a> {
    pub image: &'a [u8],
    pub table: &'a [u64],
    pub s: u32,
    ghost opens: { opening (state image.now table.now) ≡ Ok s },
}

impl<'a> Opened<'a> {
    ghost use Rattle.store.specs.Opened.{OpenedAs};

    // Tests superblock and table.
    pub fn new(image: &'a [u8], table: &'a [u64]) -> Result<Opened<'a>, Refusal>
        ensures { OpenedAs result (state image.entry.now table.entry.now) }
    {
        let Some(s) = open(image) else {
            return Err(Refusal::BadSuperblock);
        };
        if (table.len() as u64) < used_entries(s, image.len() as u64) {
            return Err(Refusal::ShortTable);
        }
        Ok(Opened { image, table, s })
    }
}
