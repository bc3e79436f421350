// Positions in one number: the one at place k is byte k.
ghost use Rattle.std.specs.Prelude.{◌≡◌, ◌<◌};
ghost use Rattle.placement.specs.laws.Packed.{place_in, removed_from};

// 0 to 7.
pub const POSITIONS: u64 = 0x0706_0504_0302_0100;

// Takes out the position at place k: those behind it come down by one place.
pub fn take(packed: &mut u64, k: u64) -> u8
    requires { k < 8 }
    ensures taken { result ≡ place_in packed.old k }
    ensures left { packed.new ≡ removed_from packed.old k }
{
    let all = *packed;
    let bits = 8 * k;
    let behind = all >> bits;
    *packed = all % (1 << bits) + ((behind / 256) << bits);
    (behind % 256) as u8
}
