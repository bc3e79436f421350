// The generator.
ghost use Rattle.std.specs.Prelude.{◌≡◌};
ghost use Rattle.workload.specs.Generator.{advanced, drawn};

// A generator in a state.
#[derive(Clone, Copy)]
pub struct Generator {
    pub state: u64,
}

impl Generator {
    // The next draw. The state takes a step, whose sum wraps round at 64 bits, and three shifts make the draw of it.
    #[tactic(auto, unfolding(crate::specs::Generator::advanced, crate::specs::Generator::xor_right, crate::specs::Generator::xor_left, crate::specs::Generator::drawn))]
    pub fn next(&mut self) -> u64
        ensures state { self.new.state ≡ advanced self.old.state }
        ensures draw { result ≡ drawn (advanced self.old.state) }
    {
        self.state = self.state.wrapping_add(0x9E37_79B9_7F4A_7C15);
        let a = self.state ^ (self.state >> 30);
        let b = a ^ (a << 27);
        b ^ (b >> 31)
    }
}
