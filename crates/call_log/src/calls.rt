// Making the call that a record asks for.
ghost use Rattle.std.specs.Prelude.{◌≡◌};
ghost use Rattle.store.specs.State.{state, outcome};
ghost use Rattle.call_log.specs.Run.{made};

use crate::record::Call;
use store::Refusal;

// Makes a call.
#[tactic(auto, using(store::specs::laws::Move::move_leaves, store::specs::laws::Load::load_leaves))]
pub fn make(image: &mut [u8], table: &mut [u64], c: Call) -> Result<u64, Refusal>
    ensures { outcome result image.new table.new ≡ made c (state image.old table.old) }
{
    match c {
        Call::Allocate(size, ty) => store::allocate(image, table, size, ty),
        Call::Free(p) => store::free(image, table, p),
        Call::Move(p, distance) => store::offset(image, table, p, distance),
        Call::Load(p, width) => store::load(image, table, p, width),
        Call::Store(p, width, value) => store::store(image, table, p, width, value),
        Call::Fill(p, n, byte) => store::fill(image, table, p, n, byte),
        Call::Copy(target, source, n) => store::copy(image, table, target, source, n),
    }
}
