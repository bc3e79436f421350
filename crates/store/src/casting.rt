// Type check before a cast: whether an object's type has another one at the pointer's distance from the base.
ghost use Rattle.std.specs.Prelude.{◌≡◌, true};
ghost use Rattle.descriptors.specs.Descriptors.{good_list, Stands};
ghost use Rattle.store.specs.State.{state};
ghost use Rattle.store.specs.Calls.{described, has_at, cast_answer, has_type};

use crate::answer::Refusal;
use crate::opening::Opened;
use block::header::read_header;
use descriptors::checking::good_list;
use descriptors::layout::type_has;
use descriptors::reading::read_descriptor;
use descriptors::searching::find_type;

// Row 25, for an object of that type and raw size; the number is the position of the type's descriptor.
fn described(list: &[u8], ty: u64, size: u64) -> Result<usize, Refusal>
    requires { good_list list.now ≡ true }
    ensures { result ≡ described list.now ty size }
{
    let q = find_type(list, list.len(), ty).ok_or(Refusal::Undescribed)?;
    if size < read_descriptor(list, q).size {
        return Err(Refusal::Undescribed);
    }
    Ok(q)
}

// Whether the type described at q has the wanted one at a distance from the base: 1 for yes, 0 for no.
fn has_at(list: &[u8], wanted: u64, q: usize, distance: i64) -> u64
    requires { Stands list.now q }
    ensures { result ≡ has_at list.now wanted q distance }
{
    if distance < 0 {
        return 0;
    }
    if type_has(list, wanted, q, distance as u64) {
        1
    } else {
        0
    }
}

// Row 25, then the answer, for an object of that type and raw size and a pointer at that distance from its base.
fn cast(list: &[u8], wanted: u64, ty: u64, size: u64, distance: i64) -> Result<u64, Refusal>
    requires { good_list list.now ≡ true }
    ensures { result ≡ cast_answer list.now wanted ty size distance }
{
    let q = described(list, ty, size)?;
    Ok(has_at(list, wanted, q, distance))
}

// Whether the object's type has the wanted one at the pointer's distance from the base: 1 for yes, 0 for no.
pub fn has_type(
    image: &[u8],
    table: &[u64],
    list: &[u8],
    pointer: u64,
    wanted: u16,
) -> Result<u64, Refusal>
    ensures { result ≡ has_type list.now pointer wanted (state image.now table.now) }
{
    let store = Opened::new(image, table)?;
    if !good_list(list) {
        return Err(Refusal::BadDescriptor);
    }
    let object = store.locate(pointer)?;
    let d = read_header(store.image, object.header as usize);
    cast(list, wanted as u64, d.ty, object.size, object.offset)
}
