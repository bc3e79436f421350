// Which type has which at an offset: a type reads its fields, and a field reads its type. A field's type is described before its record, so that the
// descriptor's position falls. Each calls the other last and passes the same slice on, so that LLVM makes a loop of them, whose stack does not grow.
ghost use Rattle.std.specs.Prelude.{◌≡◌, ◌≤◌, ◌<◌};
ghost use Rattle.descriptors.specs.Descriptors.{field_count, field_at, Stands};
ghost use Rattle.descriptors.specs.Layouts.{field_has, type_has};

use super::reading::{read_descriptor, read_field};
use super::searching::{find_type, last_field};

// Whether the type described at p has `wanted` at o. Only the last field that starts at or before o can: those before it end there at the latest.
#[cycle(field_has_type_has)]
pub fn type_has(list: &[u8], wanted: u64, p: usize, o: u64) -> bool
    requires { Stands list.now p }
    ensures { result ≡ type_has list.now wanted p o }
{
    let d = read_descriptor(list, p);
    if d.ty == wanted && o == 0 {
        return true;
    }
    match last_field(list, p, d.field_count(), o) {
        None => false,
        Some(k) => field_has(list, wanted, p, k, o),
    }
}

// Whether field k of the record described at p, which starts at or before o, has `wanted` there.
#[cycle(field_has_type_has)]
fn field_has(list: &[u8], wanted: u64, p: usize, k: usize, o: u64) -> bool
    requires stands { Stands list.now p }
    requires below { k < field_count list.now p }
    requires starts { (field_at list.now p k).offset ≤ o }
    ensures { result ≡ field_has (type_has list.now wanted) list.now p o (field_at list.now p k) }
{
    let f = read_field(list, p, k);
    match find_type(list, p, f.ty) {
        None => false,
        Some(q) => type_has(list, wanted, q, o - f.offset),
    }
}
