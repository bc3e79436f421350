// Descriptors and fields by value.
ghost use Rattle.std.specs.Prelude.{◌≡◌, ◌-◌, ◌/◌, ◌≤◌};
ghost use Rattle.descriptors.specs.Descriptors.{good_shape};

// The kind of a plain type.
const PLAIN: u64 = 4;

// The kind of a record.
const RECORD: u64 = 5;

// A descriptor without its fields: its length in bytes, its kind, its type number and the described size in bytes.
#[derive(Clone, Copy)]
pub struct Descriptor {
    pub length: usize,
    pub kind: u64,
    pub ty: u64,
    pub size: u64,
}

impl Descriptor {
    // How many fields it has.
    pub(crate) fn field_count(self) -> usize
        requires { 12 ≤ self.length }
        ensures { result ≡ (self.length - 12) / 6 }
    {
        (self.length - 12) / 6
    }

    // Whether the length is what the kind asks for.
    pub(crate) fn has_good_shape(self) -> bool
        ensures { result ≡ good_shape self }
    {
        match self.kind {
            PLAIN => self.length == 12,
            RECORD => 12 <= self.length && (self.length - 12) % 6 == 0,
            _ => false,
        }
    }
}

// A field of a record: its offset in the record, in bytes, and its type number.
#[derive(Clone, Copy)]
pub struct Field {
    pub offset: u64,
    pub ty: u64,
}
