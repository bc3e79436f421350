// Frames: 2^n bytes, starting at a multiple of 2^n.
ghost use Rattle.std.specs.Prelude.{◌≡◌, ◌<◌};
ghost use Rattle.frame.specs.Frame.{frame_number, frame_start, same_frame};

// The start of the frame of 2^n bytes that holds the address.
pub fn frame_start(address: u64, n: u32) -> u64
    requires { n < 64 }
    ensures { result ≡ frame_start n address }
{
    (address >> n) << n
}

// Whether both addresses stand in one frame of 2^n bytes.
pub fn same_frame(n: u32, a: u64, b: u64) -> bool
    requires { n < 64 }
    ensures { result ≡ same_frame n a b }
{
    (a >> n) == (b >> n)
}

// The exponent of the smallest frame that holds both addresses.
pub fn frame_number(a: u64, b: u64) -> u32
    ensures { result ≡ frame_number a b }
{
    if a == b {
        0
    } else {
        frame_number(a >> 1, b >> 1) + 1
    }
}
