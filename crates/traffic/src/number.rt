// Numbers in decimal, as arguments have them.
ghost use Rattle.std.specs.Prelude.{◌≡◌};
ghost use Rattle.traffic.specs.Number.{number_of};

// The number that a word is: digits only, one at least, with a value below 2^64.
pub fn read_number(word: &[u8]) -> Option<u64>
    ensures { result ≡ number_of word.now }
{
    if word.is_empty() {
        return None;
    }
    let mut value = 0u64;
    for &b in word {
        if !b.is_ascii_digit() {
            return None;
        }
        let digit = u64::from(b - b'0');
        value = value.checked_mul(10)?.checked_add(digit)?;
    }
    Some(value)
}
