// Load, store and fill.
ghost use Rattle.std.specs.Prelude.{◌≡◌, true, ◌^◌, ltb};
ghost use Rattle.store.specs.State.{state, outcome};
ghost use Rattle.store.specs.Calls.{good_width, load_answer, store_checks, fill_checks, store, fill};
ghost use Rattle.store.specs.Opened.{seen};

use crate::answer::Refusal;
use crate::opening::Opened;
use block::bytes::{read_field, write, write_field};
use frame::Pointer;

// The widths that a load or store may have.
fn good_width(width: u64) -> bool
    ensures { result ≡ good_width width }
{
    if width < 1 {
        return false;
    }
    width <= 8
}

// Whether the value fits that many bytes: nothing is left of it behind them.
fn fits(width: u64, value: u64) -> bool
    requires { good_width width ≡ true }
    ensures { result ≡ ltb value (256 ^ width) }
{
    if width == 8 {
        return true;
    }
    value >> (8 * width) == 0
}

// The number in `width` bytes through a pointer.
pub fn load(image: &[u8], table: &[u64], pointer: u64, width: u64) -> Result<u64, Refusal>
    ensures { result ≡ load_answer pointer width (state image.now table.now) }
{
    let store = Opened::new(image, table)?;
    if !good_width(width) {
        return Err(Refusal::BadWidth);
    }
    // the same for either flag: so the compiler ends the way of each kind of pointer with the read
    if Pointer::unpack(pointer).flag {
        let at = store.access(pointer, width)?;
        Ok(read_field(store.image, at as usize, width))
    } else {
        let at = store.access(pointer, width)?;
        Ok(read_field(store.image, at as usize, width))
    }
}

impl Opened<'_> {
    // The rows of store; the number is the address.
    fn storable(&self, pointer: u64, width: u64, value: u64) -> Result<u64, Refusal>
        ensures { result ≡ store_checks pointer width value (seen self.now) }
    {
        if !good_width(width) {
            return Err(Refusal::BadWidth);
        }
        if !fits(width, value) {
            return Err(Refusal::TooLarge);
        }
        self.access(pointer, width)
    }

    // The rows of fill; the number is the address.
    fn fillable(&self, pointer: u64, length: u32) -> Result<u64, Refusal>
        ensures { result ≡ fill_checks pointer length (seen self.now) }
    {
        if length == 0 {
            return Err(Refusal::Empty);
        }
        self.access(pointer, length as u64)
    }
}

// Puts the value into `width` bytes through a pointer.
pub fn store(
    image: &mut [u8],
    table: &[u64],
    pointer: u64,
    width: u64,
    value: u64,
) -> Result<u64, Refusal>
    ensures { outcome result image.new table.now ≡ store pointer width value (state image.old table.now) }
{
    let at = Opened::new(image, table)?.storable(pointer, width, value)?;
    write_field(image, at as usize, width, value);
    Ok(0)
}

// The same for one byte, where rows 14 and 16 cannot come: a path of its own, so that `store` stays in one piece with its export.
pub fn store_byte(image: &mut [u8], table: &[u64], pointer: u64, byte: u8) -> Result<u64, Refusal>
    ensures { outcome result image.new table.now ≡ store pointer 1 byte (state image.old table.now) }
{
    let at = Opened::new(image, table)?.access(pointer, 1)?;
    write::<1>(image, at as usize, byte as u64);
    Ok(0)
}

// Sets that many bytes through a pointer to one value.
pub fn fill(
    image: &mut [u8],
    table: &[u64],
    pointer: u64,
    length: u32,
    value: u8,
) -> Result<u64, Refusal>
    ensures { outcome result image.new table.now ≡ fill pointer length value (state image.old table.now) }
{
    let at = Opened::new(image, table)?.fillable(pointer, length)?;
    block::bytes::fill(image, at as usize, length as usize, value);
    Ok(0)
}
