// What is asked for: row 26, and the floor.
ghost use Rattle.std.specs.Prelude.{◌≡◌, ◌+◌, ◌^◌, ◌<◌, ltb};
ghost use Rattle.placement.specs.Placement.{good_sizes, good_plan, floor_of};

// Whether every size is in range.
fn good_sizes(sizes: &[u32]) -> bool
    ensures { result ≡ good_sizes sizes.now }
{
    sizes.iter().all(|size| *size <= 65535)
}

// Whether there are 1 to 8 sizes in range, and the exponent is.
#[tactic(auto, unfolding(crate::specs::Placement::good_plan))]
pub fn good_plan(s: u32, sizes: &[u32]) -> bool
    ensures { result ≡ good_plan s sizes.now }
{
    (1..=8).contains(&sizes.len()) && good_sizes(sizes) && (6..=15).contains(&s)
}

// Whether no slot holds an object of `size` bytes.
fn oversized(s: u32, size: u32) -> bool
    requires { s < 64 }
    ensures { result ≡ ltb (2 ^ s) (17 + size) }
{
    1u64 << s < 17 + u64::from(size)
}

// How many sizes fit no slot.
pub fn floor_of(sizes: &[u32], s: u32) -> u64
    requires { s < 64 }
    ensures { result ≡ floor_of s sizes.now }
{
    sizes.iter().filter(|size| oversized(s, **size)).count() as u64
}
