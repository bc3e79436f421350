// Row 24: whether every descriptor of a list is good.
ghost use Rattle.std.specs.Prelude.{◌≡◌, ◌+◌, ◌-◌, ◌/◌, ◌≤◌, length};
ghost use Rattle.descriptors.specs.Descriptors.{descriptor_at, size_at, WholeTo, end_within, field_end, good_fields_in, good_head, good_descriptor, good_list};

use super::descriptor::{Descriptor, Field};
use super::reading::{read_descriptor, read_field};
use super::searching::find_type;

// The offset at which `extent` bytes from `offset` on end, if they start at or after `from` and fit inside `size`. No sum is made before it is known to fit.
fn end_within(from: u64, size: u64, offset: u64, extent: u64) -> Option<u64>
    ensures { result ≡ end_within from size offset extent }
{
    if offset < from || size < offset || size - offset < extent {
        return None;
    }
    Some(offset + extent)
}

// Where a field of the descriptor at p, of a record of `size` bytes, ends, if it is good behind `from`.
#[tactic(auto, using(crate::specs::laws::Lookups::found_head, crate::specs::laws::Fields::unnamed_ends, crate::specs::laws::Fields::named_ends))]
fn field_end(list: &[u8], p: usize, from: u64, size: u64, field: Field) -> Option<u64>
    requires whole { WholeTo list.now p }
    requires sized { size ≡ size_at list.now p }
    ensures { result ≡ field_end list.now p from field }
{
    let q = find_type(list, p, field.ty)?;
    end_within(from, size, field.offset, read_descriptor(list, q).size)
}

// Whether the fields of the descriptor d at p are good.
#[tactic(auto, using(crate::proofs::Turns::fields_end, crate::proofs::Turns::fields_fail, crate::proofs::Turns::fields_go_on))]
fn good_fields(list: &[u8], p: usize, d: Descriptor) -> bool
    requires whole { WholeTo list.now p }
    requires here { d ≡ descriptor_at list.now p }
    requires long { 12 ≤ d.length }
    requires inside { p + d.length ≤ length list.now }
    ensures { result ≡ good_fields_in ((d.length - 12) / 6) list.now p 0 0 }
{
    let mut from: u64 = 0;
    for k in 0..d.field_count() {
        let Some(end) = field_end(list, p, from, d.size, read_field(list, p, k)) else {
            return false;
        };
        from = end;
    }
    true
}

// Whether the descriptor at p is not cut short, of a good shape, and of a size that is not 0.
fn good_head(list: &[u8], p: usize) -> bool
    requires { p ≤ length list.now }
    ensures { result ≡ good_head list.now p }
{
    let left = list.len() - p;
    if left < 12 {
        return false;
    }
    let d = read_descriptor(list, p);
    d.length <= left && d.has_good_shape() && 0 < d.size
}

// Whether the descriptor at p is good: its head, its type, which no descriptor before it has, and its fields.
#[tactic(auto, unfolding(crate::specs::Descriptors::good_descriptor))]
fn good_descriptor(list: &[u8], p: usize) -> bool
    requires { WholeTo list.now p }
    ensures { result ≡ good_descriptor list.now p }
{
    if !good_head(list, p) {
        return false;
    }
    let d = read_descriptor(list, p);
    find_type(list, p, d.ty).is_none() && good_fields(list, p, d)
}

// Whether every descriptor of the list is good.
pub fn good_list(list: &[u8]) -> bool
    ensures { result ≡ good_list list.now }
{
    let mut p = 0;
    while p < list.len() {
        if !good_descriptor(list, p) {
            return false;
        }
        p += read_descriptor(list, p).length;
    }
    true
}
