// Copy: bytes from one object to another, or inside one.
ghost use Rattle.std.specs.Prelude.{◌≡◌};
ghost use Rattle.store.specs.State.{state, outcome};
ghost use Rattle.store.specs.Calls.{copy_checks, copy};
ghost use Rattle.store.specs.Opened.{seen};

use crate::answer::Refusal;
use crate::opening::Opened;
use block::bytes::copy_within;
use frame::Pointer;

impl Opened<'_> {
    // The rows of copy and of compare; the number is the second pointer's address.
    #[inline(always)]
    pub fn both(&self, first: u64, second: u64, length: u32) -> Result<u64, Refusal>
        ensures { result ≡ copy_checks first second length (seen self.now) }
    {
        if length == 0 {
            return Err(Refusal::Empty);
        }
        self.access(first, length as u64)?;
        self.access(second, length as u64)
    }
}

// Copies that many bytes, as if all of the source's were read first.
pub fn copy(
    image: &mut [u8],
    table: &[u64],
    target: u64,
    source: u64,
    length: u32,
) -> Result<u64, Refusal>
    ensures { outcome result image.new table.now ≡ copy target source length (state image.old table.now) }
{
    let from = Opened::new(image, table)?.both(target, source, length)?;
    let to = Pointer::unpack(target).address;
    copy_within(image, to as usize, from as usize, length as usize);
    Ok(0)
}
