// Compare: the bytes through one pointer against those through another.
ghost use Rattle.std.specs.Prelude.{◌≡◌};
ghost use Rattle.store.specs.State.{state, comparison_value};
ghost use Rattle.store.specs.Calls.{compare};

use crate::answer::Refusal;
use crate::opening::Opened;
use block::order::compare_runs;
use frame::Pointer;
use std::cmp::Ordering;

// The value that a compare gives: -1, 0 or 1, and 0 where it is refused.
pub fn compared(answer: Result<Ordering, Refusal>) -> i64
    ensures { result ≡ comparison_value answer }
{
    match answer {
        Ok(o) => o as i64,
        Err(_) => 0,
    }
}

// How that many bytes of the left stand to those of the right.
pub fn compare(
    image: &[u8],
    table: &[u64],
    left: u64,
    right: u64,
    length: u32,
) -> Result<Ordering, Refusal>
    ensures { result ≡ compare left right length (state image.now table.now) }
{
    let b = Opened::new(image, table)?.both(left, right, length)?;
    let a = Pointer::unpack(left).address;
    Ok(compare_runs(image, a as usize, b as usize, length as usize))
}
