// How one run of bytes of an image stands to another of the same length.
ghost use Rattle.std.specs.Prelude.{◌≡◌, ◌+◌, ◌≤◌, length, take, drop};
ghost use Rattle.block.specs.Order.{compare_bytes};

use std::cmp::Ordering;

// How the n bytes at a stand to the n at b: by the first that differ, unsigned.
pub fn compare_runs(image: &[u8], a: usize, b: usize, n: usize) -> Ordering
    requires { (a + n ≤ length image.now) × (b + n ≤ length image.now) }
    ensures { result ≡ compare_bytes (take n (drop a image.now)) (take n (drop b image.now)) }
{
    image[a..a + n].cmp(&image[b..b + n])
}
