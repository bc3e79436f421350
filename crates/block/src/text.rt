// Texts in an image: zero-terminated strings.
ghost use Rattle.std.specs.Prelude.{◌≡◌, ◌+◌, ◌≤◌, length, take, drop};
ghost use Rattle.block.specs.Text.{text_of};

// The length of the text in the n bytes at `at`, its zero byte not counted, or none where no zero byte ends it. It takes 16 bytes a turn up to the 16 that have
// the first zero, then 8, for short texts: the compiler makes one load and one comparison of either.
pub fn find_text(image: &[u8], at: usize, n: usize) -> Option<u64>
    requires { at + n ≤ length image.now }
    ensures { result ≡ text_of (take n (drop at image.now)) }
{
    let mut i = 0;
    while 16 <= n - i && !image[at + i..at + i + 16].contains(&0) {
        i += 16;
    }
    while 8 <= n - i && !image[at + i..at + i + 8].contains(&0) {
        i += 8;
    }
    let k = image[at + i..at + n].iter().position(|&b| b == 0)?;
    Some((i + k) as u64)
}
