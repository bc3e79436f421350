// The live pointers, in the order of their allocation.
ghost use Rattle.std.specs.Prelude.{◌≡◌, ℕ, ◌<◌, ◌≤◌, List, [], ◌∷◌, ◌++◌, length, take};
ghost use Rattle.workload.specs.Choice.{remove_at};

use std::marker::Model;

// At most 64 of them. Behind the first `count` stand numbers that nothing reads.
#[derive(Drop)]
pub struct Held {
    pointers: [u64; 64],
    count: usize,
}

impl Model for Held {
    ghost Value = { List ℕ };

    ghost view = { λ h. take h.count h.pointers };

    ghost invariant = { λ h. h.count ≤ 64 };
}

impl Held {
    // None.
    pub fn new() -> Self
        ensures { result ≡ [] }
    {
        Held {
            pointers: [0; 64],
            count: 0,
        }
    }

    // All of them.
    pub fn live(&self) -> &[u64]
        ensures { result.now ≡ self.now }
    {
        &self.pointers[..self.count]
    }

    // Puts one behind the others.
    pub fn push(&mut self, p: u64)
        requires { length self.old < 64 }
        ensures { self.new ≡ self.old ++ p ∷ [] }
    {
        self.pointers[self.count] = p;
        self.count += 1;
    }

    // Takes the one in position i out; later ones move down.
    pub fn remove(&mut self, i: usize)
        requires { i < length self.old }
        ensures { self.new ≡ remove_at i self.old }
    {
        self.pointers.copy_within(i + 1..self.count, i);
        self.count -= 1;
    }
}
