// The tag of an object, by its wrapper frame, and the table entry of a large-framed one.
ghost use Rattle.std.specs.Prelude.{◌≡◌, true, ◌+◌, ◌<◌, ◌≤◌, ◌^◌};
ghost use Rattle.frame.specs.Frame.{frame_start};
ghost use Rattle.frame.specs.Pointers.{InRange, good_tag};
ghost use Rattle.frame.specs.Tags.{first_held, last_held, wrapper, tag_matches, used_entries, entry_at};
ghost use Rattle.frame.specs.laws.Tags.{slot_holds, frame_holds, tagged};

use crate::number::{frame_number, frame_start, same_frame};
use crate::parts::Pointer;

// The pointer to an object, with its table entry where it is large-framed.
#[derive(Clone, Copy)]
pub struct Tagged {
    pub pointer: Pointer,
    pub entry: Option<usize>,
}

// The first byte that the wrapper frame of an object holds: its header's.
fn first_held(header: u64) -> u64
    requires { (16 ≤ header) × (header < 2 ^ 62) }
    ensures { result ≡ first_held header }
{
    header
}

// The last one: document 01's e.
fn last_held(h: u64, size: u64) -> u64
    requires { h + size < 2 ^ 62 }
    ensures { result ≡ last_held h size }
{
    h + 16 + size
}

// The exponent of the wrapper frame of a large-framed object. Its ends part above the slot, so that halving them begins there.
fn wrapper_above(s: u32, h: u64, size: u64) -> u32
    requires { (s < 16) × (16 ≤ h) × (h + 16 + size ≤ 2 ^ 30) × (s < wrapper h size) }
    ensures { result ≡ wrapper h size }
{
    s + frame_number(first_held(h) >> s, last_held(h, size) >> s)
}

// How many table entries an image of `len` bytes uses.
#[tactic(auto, unfolding(crate::specs::Tags::used_entries))]
pub fn used_entries(s: u32, len: u64) -> u64
    requires { (s < 16) × (1 ≤ len) × (len ≤ 2 ^ 30) }
    ensures { result ≡ used_entries s len }
{
    48 * (((len - 1) >> (s + 1)) + 1)
}

// The table entry of the frame of 2^n bytes that holds the address.
#[tactic(auto, unfolding(crate::specs::Tags::entry_at))]
pub fn entry_index(s: u32, n: u32, address: u64) -> usize
    requires { (s < n) × (n < 32) × (frame_start n address < 2 ^ 30) }
    ensures { result ≡ entry_at s n address }
{
    48 * ((frame_start(address, n) >> (s + 1)) as usize) + ((n - s - 1) as usize)
}

// The pointer to the object of `size` bytes whose header is at h, and its entry.
pub fn tag_object(s: u32, h: u64, size: u64) -> Tagged
    requires { (s < 16) × (16 ≤ h) × (h + 16 + size ≤ 2 ^ 30) }
    ensures { result ≡ tagged s h size }
{
    let address = h + 16;
    if same_frame(s, first_held(h), last_held(h, size)) {
        Tagged {
            pointer: Pointer {
                flag: true,
                tag: h - frame_start(h, s),
                address,
            },
            entry: None,
        }
    } else {
        let n = wrapper_above(s, h, size);
        Tagged {
            pointer: Pointer {
                flag: false,
                tag: n as u64,
                address,
            },
            entry: Some(entry_index(s, n, h)),
        }
    }
}

impl Pointer {
    // Whether the object at h has this very flag and tag number, in constant time.
    #[tactic(auto, using(crate::specs::laws::Pointers::good_large, crate::specs::laws::Tags::tag_test_lem))]
    pub fn tag_matches(self, s: u32, h: u64, size: u64) -> bool
        requires { (s < 16) × (good_tag s self ≡ true) × (16 ≤ h) × (h + size < 2 ^ 62) }
        ensures { result ≡ tag_matches s h size self }
    {
        let a = first_held(h);
        let e = last_held(h, size);
        if self.flag {
            same_frame(s, a, e) && h - frame_start(h, s) == self.tag
        } else {
            let n = self.tag as u32;
            same_frame(n, a, e) && !same_frame(n - 1, a, e)
        }
    }

    // Whether the object of `size` bytes that a small-framed tag leads to has this very tag: its header stands at that place of the slot, so its last byte
    // decides.
    pub fn slot_holds(self, s: u32, size: u64) -> bool
        requires { (s < 16) × (InRange self) × (size < 2 ^ 61) }
        ensures { result ≡ slot_holds s size self }
    {
        last_held(self.tag, size) >> s == 0
    }

    // Whether the object at h has this very large-framed tag and stands in the address's frame: it reaches from the lower half of that to the upper one.
    pub fn frame_holds(self, h: u64, size: u64) -> bool
        requires { (InRange self) × (1 ≤ self.tag) × (self.tag ≤ 31) × (h + size < 2 ^ 62) }
        ensures { result ≡ frame_holds h size self }
    {
        let half = self.tag as u32 - 1;
        let lower = 2 * (self.address >> (self.tag as u32));
        h >> half == lower && last_held(h, size) >> half == lower + 1
    }
}
