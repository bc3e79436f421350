// What the calls answer, as the program writes it.
use std::cmp::Ordering;
use std::fmt;
use std::fmt::Display;
use store::Refusal;

// A refusal, by its number in docs/FORMAT.md.
#[derive(Clone, Copy, PartialEq, Eq)]
pub struct Refused(pub u32);

impl Refused {
    // Why a call was refused. No call here gives 17 to 19, which are a call log's.
    fn reason(self) -> &'static str {
        match self.0 {
            1 => "slot exponent outside 6 to 15",
            2 => "image length outside 64 to 2^30",
            3 => "table too short to set up",
            4 => "superblock not as laid out",
            5 => "table shorter than the used entries",
            6 => "length 0",
            7 => "walk meets an unsound header",
            8 => "no free block fits",
            9 => "table entry not zero",
            10 => "tag number out of range",
            11 => "tag leads to no live object",
            12 => "move leaves slot, frame or 48 bits",
            13 => "bytes not all inside the body",
            14 => "width outside 1 to 8",
            15 => "address is not the base",
            16 => "value too large for the width",
            20 => "no zero byte up to the body's end",
            21 => "table entry does not hold its header",
            22 => "free total below 0 or above L - 16",
            23 => "log has no space for the next record",
            24 => "bad type descriptor",
            25 => "object not described",
            26 => "sizes or slot exponent out of range",
            27 => "budget of orders is 0",
            28 => "more than 65,536 sizes",
            29 => "size outside 1 to 65,536",
            _ => "no reason known",
        }
    }
}

impl From<Refusal> for Refused {
    fn from(refusal: Refusal) -> Refused {
        Refused(refusal.number())
    }
}

impl From<placement::Refusal> for Refused {
    fn from(refusal: placement::Refusal) -> Refused {
        Refused(refusal.number())
    }
}

impl From<overhead::Refusal> for Refused {
    fn from(refusal: overhead::Refusal) -> Refused {
        Refused(refusal.number())
    }
}

impl Display for Refused {
    fn fmt<W: fmt::Write>(&self, f: &mut fmt::Formatter<W>) -> fmt::Result {
        let reason = self.reason();
        write!(f, "refused {}: {reason}", self.0)
    }
}

// That a call is accepted which has no value to give: it is 0.
#[derive(PartialEq, Drop)]
pub struct Done(pub u64);

impl Display for Done {
    fn fmt<W: fmt::Write>(&self, f: &mut fmt::Formatter<W>) -> fmt::Result {
        write!(f, "accepted")
    }
}

// A pointer, or the bytes of a load, in 16 digits.
#[derive(PartialEq, Drop)]
pub struct Bytes(pub u64);

impl Display for Bytes {
    fn fmt<W: fmt::Write>(&self, f: &mut fmt::Formatter<W>) -> fmt::Result {
        write!(f, "0x{:016x}", self.0)
    }
}

// What a type check says: 1 is yes.
#[derive(PartialEq, Drop)]
pub struct Verdict(pub u64);

impl Display for Verdict {
    fn fmt<W: fmt::Write>(&self, f: &mut fmt::Formatter<W>) -> fmt::Result {
        f.write_str(if self.0 == 1 { "yes" } else { "no" })
    }
}

// How the left bytes stand to the right ones.
#[derive(PartialEq, Drop)]
pub struct Side(pub Ordering);

impl Display for Side {
    fn fmt<W: fmt::Write>(&self, f: &mut fmt::Formatter<W>) -> fmt::Result {
        f.write_str(match self.0 {
            Ordering::Less => "-1: the left is below",
            Ordering::Equal => "0: none differs",
            Ordering::Greater => "1: the left is above",
        })
    }
}

// The bytes from a body's start, and those to its end.
#[derive(PartialEq, Drop)]
pub struct Distances(pub i64, pub i64);

impl Display for Distances {
    fn fmt<W: fmt::Write>(&self, f: &mut fmt::Formatter<W>) -> fmt::Result {
        write!(f, "{} from the start, {} to the end", self.0, self.1)
    }
}

// A tally: live objects and their bytes, free bytes, and overhead.
#[derive(PartialEq, Drop)]
pub struct Counts(pub u64, pub u64, pub u64, pub u64);

impl Display for Counts {
    fn fmt<W: fmt::Write>(&self, f: &mut fmt::Formatter<W>) -> fmt::Result {
        let Counts(objects, live, free, overhead) = self;
        write!(
            f,
            "live objects {objects}, live bytes {live}, free bytes {free}, overhead bytes {overhead}"
        )
    }
}

// The generator's state after the last recorded draw, and the bytes of log: all draws are recorded, or the log is full.
#[derive(PartialEq, Drop)]
pub enum Drawn {
    All(u64, u64),
    LogFull(u64, u64),
}

impl Display for Drawn {
    fn fmt<W: fmt::Write>(&self, f: &mut fmt::Formatter<W>) -> fmt::Result {
        if let Drawn::LogFull(..) = self {
            write!(f, "{}; ", Refused(23))?;
        }
        let (Drawn::All(state, written) | Drawn::LogFull(state, written)) = self;
        write!(f, "state {}, bytes of log {written}", Bytes(*state))
    }
}

// The first best order of so many objects, its large-framed objects, the orders tried, and the floor. Unused places are 0.
#[derive(PartialEq, Drop)]
pub struct Order {
    pub places: [u8; 8],
    pub count: usize,
    pub large: u64,
    pub tried: u64,
    pub floor: u64,
}

impl Order {
    // An order of these places, at most eight.
    pub fn new(order: &[u8], large: u64, tried: u64, floor: u64) -> Order {
        let mut places = [0; 8];
        for (place, position) in places.iter_mut().zip(order) {
            *place = *position;
        }
        Order {
            places,
            count: order.len(),
            large,
            tried,
            floor,
        }
    }
}

impl Display for Order {
    fn fmt<W: fmt::Write>(&self, f: &mut fmt::Formatter<W>) -> fmt::Result {
        write!(f, "order")?;
        for place in self.places.iter().take(self.count) {
            write!(f, " {place}")?;
        }
        let Order {
            large,
            tried,
            floor,
            ..
        } = self;
        write!(f, ", large-framed {large}, tried {tried}, floor {floor}")
    }
}

// Extra bytes over raw bytes, left unreduced.
#[derive(PartialEq, Drop)]
pub struct Fraction(pub u64, pub u64);

impl Display for Fraction {
    fn fmt<W: fmt::Write>(&self, f: &mut fmt::Formatter<W>) -> fmt::Result {
        write!(f, "{}/{}", self.0, self.1)
    }
}

// Sums over a list of sizes, in bytes: raw, with headers, padded, and the end that padded blocks reach; the overheads of headers and of padding.
#[derive(PartialEq, Drop)]
pub struct Overheads {
    pub raw: u64,
    pub headed: u64,
    pub padded: u64,
    pub end: u64,
    pub headers: Fraction,
    pub padding: Fraction,
}

impl Display for Overheads {
    fn fmt<W: fmt::Write>(&self, f: &mut fmt::Formatter<W>) -> fmt::Result {
        let Overheads {
            raw,
            headed,
            padded,
            end,
            headers,
            padding,
        } = self;
        write!(
            f,
            "raw {raw}, headed {headed}, padded {padded}, end {end}, "
        )?;
        write!(f, "overheads {headers} and {padding}")
    }
}

// A table entry, by its number.
#[derive(Drop)]
pub struct Entry<'a> {
    pub table: &'a [u64],
    pub at: usize,
}

impl Display for Entry<'_> {
    fn fmt<W: fmt::Write>(&self, f: &mut fmt::Formatter<W>) -> fmt::Result {
        match self.table.get(self.at) {
            Some(value) => write!(f, "entry {} holds {value}", self.at),
            None => write!(f, "no table entry"),
        }
    }
}

// A pointer to the first two slots in its parts, with its entry in this table.
#[derive(PartialEq, Drop)]
pub struct Parts<'a> {
    pub pointer: u64,
    pub table: &'a [u64],
}

impl Display for Parts<'_> {
    fn fmt<W: fmt::Write>(&self, f: &mut fmt::Formatter<W>) -> fmt::Result {
        let flag = self.pointer >> 63;
        let tag = (self.pointer >> 48) & 0x7fff;
        let body = self.pointer & 0xffff_ffff_ffff;
        write!(f, "pointer {}, ", Bytes(self.pointer))?;
        write!(f, "flag {flag}, tag {tag}, body at {body}, ")?;
        if flag == 1 || tag < 7 {
            return write!(f, "no table entry");
        }
        let entry = Entry {
            table: self.table,
            at: (tag - 7) as usize,
        };
        write!(f, "{entry}")
    }
}
