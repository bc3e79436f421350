// Table entries: 48 for each division, one of them for each large-framed object.
ghost use Rattle.std.specs.Prelude.{◌≡◌, true, false, ◌++◌, ◌<◌, ◌≤◌, ◌^◌, length, drop, replicate};
ghost use Rattle.frame.specs.Frame.{frame_start};
ghost use Rattle.frame.specs.Pointers.{good_tag, reach};
ghost use Rattle.frame.specs.Tags.{entry_at};
ghost use Rattle.store.specs.laws.Entries.{entry_cleared, EntryIn, holds_for, noted_for};

use frame::{Pointer, Tagged, entry_index};

// Zeroes the first n entries.
pub fn clear_entries(table: &mut [u64], n: usize)
    requires { n ≤ length table.old }
    ensures { table.new ≡ replicate n 0 ++ drop n table.old }
{
    table[..n].fill(0);
}

// Clears the entry that the pointer's tag leads through, where it leads through one.
pub fn clear_entry(table: &mut [u64], s: u32, p: Pointer)
    requires { (s < 16) × (good_tag s p ≡ true) × (frame_start (reach s p) p.address < 2 ^ 30) × (p.flag ≡ false → entry_at s p.tag p.address < length table.old) }
    ensures { table.new ≡ entry_cleared s p table.old }
{
    if !p.flag {
        let entry = entry_index(s, p.tag as u32, p.address);
        table[entry] = 0;
    }
}

// Whether the object needs no entry, or its entry holds v: zero in row 9, the header's place in row 21.
pub fn entry_holds(table: &[u64], t: Tagged, v: u64) -> bool
    requires { EntryIn t table.now }
    ensures { result ≡ holds_for t v table.now }
{
    t.entry.is_none_or(|entry| table[entry] == v)
}

// Puts v into the object's entry, where it has one: the header's place, or zero.
pub fn note(table: &mut [u64], t: Tagged, v: u64)
    requires { EntryIn t table.old }
    ensures { table.new ≡ noted_for t v table.old }
{
    if let Some(entry) = t.entry {
        table[entry] = v;
    }
}
