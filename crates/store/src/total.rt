// The free total in the superblock.
ghost use Rattle.std.specs.Prelude.{◌≡◌, ◌≤◌, ◌<◌, ◌^◌, length};
ghost use Rattle.store.specs.State.{state};
ghost use Rattle.store.specs.Calls.{total_fits, free_total};

use crate::answer::Refusal;
use crate::opening::Opened;
use block::superblock::stored_total;

// Row 22 of free and release: whether n bytes can be given back. The stored total may be any 32-bit number.
pub fn total_fits(image: &[u8], n: u64) -> bool
    requires { (16 ≤ length image.now) × (n < 2 ^ 63) }
    ensures { result ≡ total_fits image.now n }
{
    stored_total(image) + n <= image.len() as u64 - 16
}

// The free total, as it stands there.
pub fn free_total(image: &[u8], table: &[u64]) -> Result<u64, Refusal>
    ensures { result ≡ free_total (state image.now table.now) }
{
    let store = Opened::new(image, table)?;
    Ok(stored_total(store.image))
}
