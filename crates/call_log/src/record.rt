// What a log has at a position.
ghost use Rattle.std.specs.Prelude.{◌+◌, ◌<◌, ◌≤◌, ◌≡◌, length};
ghost use Rattle.block.specs.Bytes.{field};
ghost use Rattle.call_log.specs.Records.{kind_number, KindWith, kind_of, field_bytes, record_length, call_at, good_value, insist, formed_at, next_at};

use block::bytes::read;

// A call with its arguments. A fill's value has two bytes in the record and one here; a width is handed on untested.
#[derive(Clone, Copy)]
pub enum Call {
    Allocate(u32, u16),
    Free(u64),
    Move(u64, i64),
    Load(u64, u64),
    Store(u64, u64, u64),
    Fill(u64, u32, u8),
    Copy(u64, u64, u32),
}

// Why a record is malformed, by document 02's number.
#[derive(Clone, Copy, Debug, PartialEq, Eq)]
pub enum Fault {
    CutShort = 17,
    UnknownKind = 18,
    BadFields = 19,
}

// The kind of a record, by its number.
#[derive(Clone, Copy)]
pub enum Kind {
    Allocate = 16,
    Free = 17,
    Move = 18,
    Load = 19,
    Store = 20,
    Fill = 21,
    Copy = 22,
}

impl Call {
    // The kind of its record.
    pub(crate) fn kind(self) -> Kind
        ensures { kind_number result ≡ kind_of self }
    {
        match self {
            Call::Allocate(..) => Kind::Allocate,
            Call::Free(..) => Kind::Free,
            Call::Move(..) => Kind::Move,
            Call::Load(..) => Kind::Load,
            Call::Store(..) => Kind::Store,
            Call::Fill(..) => Kind::Fill,
            Call::Copy(..) => Kind::Copy,
        }
    }
}

impl Kind {
    // How long a record of this kind is.
    #[tactic(auto, unfolding(crate::specs::Records::field_bytes))]
    fn record_length(self) -> usize
        ensures { result ≡ record_length (kind_number self) }
    {
        match self {
            Kind::Allocate => 10,
            Kind::Free => 12,
            Kind::Move => 20,
            Kind::Load => 14,
            Kind::Store => 22,
            Kind::Fill => 18,
            Kind::Copy => 24,
        }
    }
}

impl TryFrom<u64> for Kind {
    type Error = Fault;

    ghost try_from_gives = { KindWith };

    fn try_from(number: u64) -> Result<Kind, Fault> {
        match number {
            16 => Ok(Kind::Allocate),
            17 => Ok(Kind::Free),
            18 => Ok(Kind::Move),
            19 => Ok(Kind::Load),
            20 => Ok(Kind::Store),
            21 => Ok(Kind::Fill),
            22 => Ok(Kind::Copy),
            _ => Err(Fault::UnknownKind),
        }
    }
}

// The call of a kind whose fields begin at f. A fill value has to be a byte.
#[tactic(auto, using(crate::proofs::Reading::half_fits, crate::proofs::Reading::word_fits, crate::proofs::Reading::signed_cast), unfolding(crate::specs::Records::field_bytes, crate::specs::Records::call_at, crate::specs::Records::good_value))]
fn call_at(log: &[u8], kind: Kind, f: usize) -> Result<Call, Fault>
    requires { f + field_bytes (kind_number kind) ≤ length log.now }
    ensures { result ≡ insist (good_value log.now (kind_number kind) f) Fault.BadFields (Ok (call_at log.now (kind_number kind) f)) }
{
    Ok(match kind {
        Kind::Allocate => Call::Allocate(read::<4>(log, f) as u32, read::<2>(log, f + 4) as u16),
        Kind::Free => Call::Free(read::<8>(log, f)),
        Kind::Move => Call::Move(read::<8>(log, f), read::<8>(log, f + 8).cast_signed()),
        Kind::Load => Call::Load(read::<8>(log, f), read::<2>(log, f + 8)),
        Kind::Store => Call::Store(
            read::<8>(log, f),
            read::<2>(log, f + 8),
            read::<8>(log, f + 10),
        ),
        Kind::Fill => {
            let value = u8::try_from(read::<2>(log, f + 12)).map_err(|_| Fault::BadFields)?;
            Call::Fill(read::<8>(log, f), read::<4>(log, f + 8) as u32, value)
        }
        Kind::Copy => Call::Copy(
            read::<8>(log, f),
            read::<8>(log, f + 8),
            read::<4>(log, f + 16) as u32,
        ),
    })
}

// Rows 18 and 19, for a record of `len` bytes; or its call, and the position behind it.
#[tactic(auto, unfolding(crate::specs::Records::formed_at))]
fn formed_at(log: &[u8], at: usize, len: usize) -> Result<(Call, usize), Fault>
    requires { (4 ≤ len) × (at + len ≤ length log.now) }
    ensures { result ≡ formed_at log.now at len }
{
    let kind = Kind::try_from(read::<2>(log, at + 2))?;
    if len != kind.record_length() {
        return Err(Fault::BadFields);
    }
    Ok((call_at(log, kind, at + 4)?, at + len))
}

// The record at a position inside the log: row 17, or what the rows behind it say.
#[tactic(auto, unfolding(crate::specs::Records::next_at))]
pub fn record_at(log: &[u8], at: usize) -> Result<(Call, usize), Fault>
    requires { at < length log.now }
    ensures { next_at log.now at ≡ Some result }
{
    let left = log.len() - at;
    if left < 4 {
        return Err(Fault::CutShort);
    }
    let len = read::<2>(log, at) as usize;
    if len < 4 || left < len {
        return Err(Fault::CutShort);
    }
    formed_at(log, at, len)
}
