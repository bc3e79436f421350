// What the calls answer: a value, the number 0 where a call has none to give, or why it was declined.
ghost use Rattle.std.specs.Prelude.{◌≡◌};
ghost use Rattle.store.specs.State.{refusal_number, returned};
ghost use Rattle.store.specs.laws.Refusals.{given};

// Why a call was declined: document 01's rows, then document 02's, in their order.
#[derive(Clone, Copy, PartialEq, Eq, Debug)]
pub enum Refusal {
    BadExponent = 1,
    BadLength = 2,
    TooFewEntries = 3,
    BadSuperblock = 4,
    ShortTable = 5,
    Empty = 6,
    Unsound = 7,
    NoSpace = 8,
    EntryTaken = 9,
    BadTag = 10,
    Dangling = 11,
    Leaves = 12,
    OutOfBounds = 13,
    BadWidth = 14,
    NotBase = 15,
    TooLarge = 16,
    Unterminated = 20,
    EntryLost = 21,
    WrongTotal = 22,
    BadDescriptor = 24,
    Undescribed = 25,
}

impl Refusal {
    // Document 01's number, or document 02's.
    pub fn number(self) -> u32
        ensures { result ≡ refusal_number self }
    {
        self as u32
    }
}

// The number that a call returns: 0 where it is accepted.
pub fn returned<T>(answer: &Result<T, Refusal>) -> u32
    ensures { result ≡ returned answer.now }
{
    match answer {
        Ok(_) => 0,
        Err(r) => r.number(),
    }
}

// The same of a call that gives a value, which goes to `place` where it is accepted.
pub fn give(answer: Result<u64, Refusal>, place: &mut u64) -> u32
    ensures value { result ≡ returned answer }
    ensures place_after { place.new ≡ given answer place.old }
{
    if let Ok(v) = answer {
        *place = v;
    }
    returned(&answer)
}
