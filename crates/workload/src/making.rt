// Making the call of a choice, and renewing the live pointers by its answer.
ghost use Rattle.std.specs.Prelude.{◌≡◌, ◌<◌, length};
ghost use Rattle.store.specs.State.{state};
ghost use Rattle.store.specs.Calls.{allocate};
ghost use Rattle.call_log.specs.Run.{made};
ghost use Rattle.workload.specs.Choice.{call_of, joined, HasRoom, pointers_after};

use crate::choosing::Choice;
use crate::held::Held;

// Allocates; an accepted pointer goes behind the others.
#[tactic(auto, using(crate::proofs::Pointers::joined_none, crate::proofs::Pointers::joined_one))]
fn join(image: &mut [u8], table: &mut [u64], held: &mut Held, size: u32)
    requires { length held.old < 64 }
    ensures pointers_after { held.new ≡ joined (allocate size 0 (state image.old table.old)).answer held.old }
    ensures table_after { state image.new table.new ≡ (allocate size 0 (state image.old table.old)).after }
{
    let mut p = 0;
    if store::allocate_number(image, table, size, 0, 0, &mut p) == 0 {
        held.push(p);
    }
}

// Makes the call of a choice.
#[tactic(auto, unfolding(crate::specs::Choice::HasRoom, crate::specs::Choice::pointers_after))]
pub fn make(image: &mut [u8], table: &mut [u64], held: &mut Held, c: Choice)
    requires { HasRoom 64 (length held.old) c }
    ensures pointers_after { held.new ≡ pointers_after c (made (call_of c) (state image.old table.old)).answer held.old }
    ensures table_after { state image.new table.new ≡ (made (call_of c) (state image.old table.old)).after }
{
    match c {
        Choice::Allocate(size) => join(image, table, held, size),
        Choice::Free(i, p) => {
            // before the call: so its position is not kept over it, and less stack is taken
            held.remove(i);
            store::free_number(image, table, p);
        }
        Choice::Store(p, byte) => {
            let _ = store::store_byte(image, table, p, byte);
        }
    }
}
