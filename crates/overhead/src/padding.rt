// Padded blocks: how many bytes one has, and where it ends.
ghost use Rattle.std.specs.Prelude.{◌≡◌, ◌+◌, ◌*◌, ◌<◌, ◌^◌};
ghost use Rattle.overhead.specs.Overhead.{padded, block_end};

// Bytes of the padded block of an object of `size` bytes: no block is shorter than 16.
pub fn padded(size: u32) -> u64
    ensures { result ≡ padded size }
{
    u64::from(size).max(16).next_power_of_two()
}

// The end of a padded block of p bytes, where the previous block ends at `from`.
pub fn block_end(p: u64, from: u64) -> u64
    requires { (0 < p) × (from + 2 * p < 2 ^ 64) }
    ensures { result ≡ block_end p from }
{
    (from + (p - 1)) / p * p + p
}
