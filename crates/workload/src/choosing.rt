// What a draw asks for.
ghost use Rattle.std.specs.Prelude.{◌≡◌, ◌≤◌, length};
ghost use Rattle.workload.specs.Choice.{position, allocates, choice_of, HasRoom};

// An allocation of so many bytes; a free of the pointer in a position, with that pointer; a store of a byte at a pointer.
#[derive(Clone, Copy)]
pub enum Choice {
    Allocate(u32),
    Free(usize, u64),
    Store(u64, u8),
}

// Whether the draw v allocates, with so many live pointers.
#[tactic(auto, unfolding(crate::specs::Choice::allocates))]
fn allocates(v: u64, count: usize) -> bool
    ensures { result ≡ allocates v count }
{
    if v % 4 < 2 {
        return count < 64;
    }
    count == 0
}

// The position that the draw v picks among the live pointers.
fn position(v: u64, count: usize) -> usize
    requires { 1 ≤ count }
    ensures { result ≡ position v count }
{
    (v / 256 % count as u64) as usize
}

// What the draw v asks for, with these live pointers in the order of their allocation.
#[tactic(auto, unfolding(crate::specs::Choice::allocates, crate::specs::Choice::choice_of, crate::specs::Choice::HasRoom))]
pub fn choose(v: u64, held: &[u64]) -> Choice
    ensures choice { result ≡ choice_of v held.now }
    ensures room { HasRoom 64 (length held.now) result }
{
    if allocates(v, held.len()) {
        return Choice::Allocate((1 + v / 256 % 97) as u32);
    }
    let i = position(v, held.len());
    let p = held[i];
    if v % 4 == 3 {
        return Choice::Store(p, (v % 256) as u8);
    }
    Choice::Free(i, p)
}
