// Tally: the memory in use.
ghost use Rattle.std.specs.Prelude.{◌≡◌};
ghost use Rattle.store.specs.State.{state};
ghost use Rattle.store.specs.Calls.{tally};

use crate::answer::Refusal;
use crate::opening::Opened;
use block::walk::{Counts, count_blocks};

// Counts the blocks of an image: live objects, live bytes, free bytes and overhead bytes.
pub fn tally(image: &[u8], table: &[u64]) -> Result<Counts, Refusal>
    ensures { result ≡ tally (state image.now table.now) }
{
    let store = Opened::new(image, table)?;
    count_blocks(store.image).ok_or(Refusal::Unsound)
}
