// Allocate and free, answered by a number and a value. Their exports and the workload call these: so each call has one caller, which the compiler makes one
// piece with it, and the number comes back in a register.
ghost use Rattle.std.specs.Prelude.{◌≡◌};
ghost use Rattle.store.specs.State.{state, returned, value};
ghost use Rattle.store.specs.Calls.{allocate_for, free};

use crate::allocation::allocate_for;
use crate::answer::returned;
use crate::release::free;

// Allocates; the pointer goes to `pointer`, 0 where it is refused.
pub fn allocate_number(
    image: &mut [u8],
    table: &mut [u64],
    size: u32,
    ty: u16,
    cue: u32,
    pointer: &mut u64,
) -> u32
    ensures value { result ≡ returned (allocate_for size ty cue (state image.old table.old)).answer }
    ensures pointer_after { pointer.new ≡ value (allocate_for size ty cue (state image.old table.old)).answer }
    ensures table_after { state image.new table.new ≡ (allocate_for size ty cue (state image.old table.old)).after }
{
    let answer = allocate_for(image, table, size, ty, cue);
    *pointer = answer.unwrap_or(0);
    returned(&answer)
}

// Frees.
pub fn free_number(image: &mut [u8], table: &mut [u64], pointer: u64) -> u32
    ensures value { result ≡ returned (free pointer (state image.old table.old)).answer }
    ensures table_after { state image.new table.new ≡ (free pointer (state image.old table.old)).after }
{
    returned(&free(image, table, pointer))
}
