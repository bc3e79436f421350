// Searches: for a type's descriptor, and for the one field that can have a type at an offset.
ghost use Rattle.std.specs.Prelude.{◌≡◌, ◌+◌, ◌*◌, ◌≤◌, length};
ghost use Rattle.descriptors.specs.Descriptors.{WholeTo, look_up};
ghost use Rattle.descriptors.specs.Layouts.{last_starting};

use super::reading::{read_descriptor, read_field};

// The position of the descriptor of the type among those before `end`.
#[tactic(auto, using(crate::specs::laws::Lookups::step))]
pub fn find_type(list: &[u8], end: usize, ty: u64) -> Option<usize>
    requires { WholeTo list.now end }
    ensures { result ≡ look_up list.now end ty }
{
    let mut p = 0;
    while p < end {
        let d = read_descriptor(list, p);
        if d.ty == ty {
            return Some(p);
        }
        p += d.length;
    }
    None
}

// The index of the last of the first n fields of the descriptor at p that starts at or before o.
#[tactic(auto, using(crate::specs::laws::Layouts::last_ended, crate::specs::laws::Layouts::last_found, crate::specs::laws::Layouts::last_on))]
pub fn last_field(list: &[u8], p: usize, n: usize, o: u64) -> Option<usize>
    requires { p + 12 + 6 * n ≤ length list.now }
    ensures { result ≡ last_starting list.now p o n }
{
    for k in (0..n).rev() {
        if read_field(list, p, k).offset <= o {
            return Some(k);
        }
    }
    None
}
