// Tagged pointers: 64 bits, taken apart into flag, tag number and address.
ghost use Rattle.std.specs.Prelude.{◌≡◌, true, false, ◌+◌, ◌<◌};
ghost use Rattle.frame.specs.Frame.{frame_start};
ghost use Rattle.frame.specs.Pointers.{unpack, pack, InRange, good_tag, moved};
ghost use Rattle.frame.specs.laws.Pointers.{reach_of};

// A pointer's parts: the top bit, set for a small-framed object; 15 bits; 48 bits.
#[derive(Clone, Copy)]
pub struct Pointer {
    pub flag: bool,
    pub tag: u64,
    pub address: u64,
}

impl Pointer {
    // The parts of a 64-bit pointer.
    #[tactic(auto, unfolding(crate::specs::Pointers::unpack))]
    pub fn unpack(word: u64) -> Self
        ensures { result ≡ unpack word }
    {
        Self {
            flag: (word >> 63) == 1,
            tag: (word >> 48) & 0x7fff,
            address: word & 0xffff_ffff_ffff,
        }
    }

    // The 64-bit pointer of these parts.
    #[tactic(auto, using(crate::proofs::Shifts::packed), unfolding(crate::specs::Pointers::pack))]
    pub fn pack(self) -> u64
        requires { InRange self }
        ensures { result ≡ pack self }
    {
        ((self.flag as u64) << 63) | (self.tag << 48) | self.address
    }

    // The start of the frame of 2^n bytes that holds the address.
    pub fn frame_start(self, n: u32) -> u64
        requires { n < 64 }
        ensures { result ≡ frame_start n self.address }
    {
        crate::number::frame_start(self.address, n)
    }

    // Whether a small-framed pointer's tag number is a place in its slot.
    #[tactic(auto, using(crate::proofs::Shifts::shr_none), unfolding(crate::specs::Pointers::good_tag))]
    pub fn slot_tag_good(self, s: u32) -> bool
        requires { (s < 16) × (self.flag ≡ true) }
        ensures { result ≡ good_tag s self }
    {
        self.tag >> s == 0
    }

    // Whether a large-framed pointer's tag number is the exponent of a frame above the slot.
    #[tactic(auto, unfolding(crate::specs::Pointers::good_tag))]
    pub fn frame_tag_good(self, s: u32) -> bool
        requires { (s < 16) × (self.flag ≡ false) }
        ensures { result ≡ good_tag s self }
    {
        (s as u64) < self.tag && self.tag <= 31
    }

    // The exponent of the slot or frame that the pointer may move in, for the slot exponent s; none where the tag number is out of range.
    #[tactic(auto, using(crate::specs::laws::Pointers::good_large), unfolding(crate::specs::Pointers::reach, crate::specs::laws::Pointers::reach_of))]
    pub fn reach(self, s: u32) -> Option<u32>
        requires { s < 16 }
        ensures { result ≡ reach_of s self }
    {
        if self.flag {
            self.slot_tag_good(s).then_some(s)
        } else if self.frame_tag_good(s) {
            Some(self.tag as u32)
        } else {
            None
        }
    }

    // The pointer moved by a signed distance; none where that leaves its frame of 2^n bytes.
    pub fn moved(self, n: u32, distance: i64) -> Option<Pointer>
        requires { (InRange self) × (n < 64) }
        ensures { result ≡ moved self n distance }
    {
        // a negative sum wraps to a number above every address
        let to = self.address.wrapping_add_signed(distance);
        if to <= 0xffff_ffff_ffff && to >> n == self.address >> n {
            Some(Pointer {
                address: to,
                ..self
            })
        } else {
            None
        }
    }
}
