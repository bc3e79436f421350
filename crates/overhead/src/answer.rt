// What the report says.
ghost use Rattle.std.specs.Prelude.{◌≡◌};
ghost use Rattle.overhead.specs.Overhead.{refusal_number};

// A fraction, left unreduced: the extra bytes, its numerator, over raw bytes, its denominator.
#[derive(Clone, Copy, Debug, PartialEq, Eq)]
pub struct Fraction {
    pub extra: u64,
    pub over: u64,
}

// Exact sums over the sizes, in bytes: raw, with headers, padded, and the end that padded blocks reach. Then the overheads of headers and of padding.
#[derive(Clone, Copy, Debug, PartialEq, Eq)]
pub struct Report {
    pub raw: u64,
    pub headed: u64,
    pub padded: u64,
    pub end: u64,
    pub headers: Fraction,
    pub padding: Fraction,
}

// Why a list is declined: rows 28 and 29 of document 02.
#[derive(Clone, Copy, Debug, PartialEq, Eq)]
pub enum Refusal {
    TooMany = 28,
    BadSize = 29,
}

impl Refusal {
    // Document 02's number.
    pub fn number(self) -> u32
        ensures { result ≡ refusal_number self }
    {
        self as u32
    }
}
