// Distances: how far a pointer is from both ends of its object's body.
ghost use Rattle.std.specs.Prelude.{◌≡◌};
ghost use Rattle.store.specs.State.{state};
ghost use Rattle.store.specs.Calls.{distances};

use crate::answer::Refusal;
use crate::opening::Opened;

// The signed distances from the start and to the end, in bytes.
#[derive(Clone, Copy)]
pub struct BodyEnds {
    pub from_start: i64,
    pub to_end: i64,
}

// The distances of any pointer that leads to an object, also outside the body.
pub fn distances(image: &[u8], table: &[u64], pointer: u64) -> Result<BodyEnds, Refusal>
    ensures { result ≡ distances pointer (state image.now table.now) }
{
    let store = Opened::new(image, table)?;
    let object = store.locate(pointer)?;
    Ok(BodyEnds {
        from_start: object.offset,
        to_end: object.remaining,
    })
}
