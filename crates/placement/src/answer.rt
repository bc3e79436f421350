// What the search for an order says.
ghost use Rattle.std.specs.Prelude.{◌≡◌, Ok};
ghost use Rattle.placement.specs.Placement.{order_word, refusal_number, answered};

// The first best order (place i holds the position of the object that comes as number i; unused places are 0), its large-framed objects, the orders
// tried, and the floor.
#[derive(Clone, Copy, Debug, PartialEq, Eq)]
pub struct Placement {
    pub order: [u8; 8],
    pub large: u64,
    pub tried: u64,
    pub floor: u64,
}

impl Placement {
    // The order in one number: place i is byte i, lowest first.
    pub fn order_word(self) -> u64
        ensures { result ≡ order_word (answered (Ok self)) }
    {
        u64::from_le_bytes(self.order)
    }
}

// Why a search is declined: rows 26 and 27 of document 02.
#[derive(Clone, Copy, Debug, PartialEq, Eq)]
pub enum Refusal {
    BadPlan = 26,
    NoBudget = 27,
}

impl Refusal {
    // Document 02's number.
    pub fn number(self) -> u32
        ensures { result ≡ refusal_number self }
    {
        self as u32
    }
}
