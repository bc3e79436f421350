// Move: document 01's name is a keyword here.
ghost use Rattle.std.specs.Prelude.{◌≡◌, ◌<◌};
ghost use Rattle.frame.specs.Pointers.{unpack};
ghost use Rattle.store.specs.State.{state};
ghost use Rattle.store.specs.Calls.{moved_by, move_answer};

use crate::answer::Refusal;
use crate::opening::Opened;
use frame::Pointer;

// The pointer moved in its slot or frame, for the slot exponent s: rows 10 and 12.
fn offset_in(s: u32, pointer: u64, distance: i64) -> Result<u64, Refusal>
    requires { s < 16 }
    ensures { result ≡ moved_by s (unpack pointer) distance }
{
    let p = Pointer::unpack(pointer);
    let n = p.reach(s).ok_or(Refusal::BadTag)?;
    let q = p.moved(n, distance).ok_or(Refusal::Leaves)?;
    Ok(q.pack())
}

// The pointer moved by a signed distance; no header is read.
pub fn offset(image: &[u8], table: &[u64], pointer: u64, distance: i64) -> Result<u64, Refusal>
    ensures { result ≡ move_answer pointer distance (state image.now table.now) }
{
    let store = Opened::new(image, table)?;
    offset_in(store.s, pointer, distance)
}
