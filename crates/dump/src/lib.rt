// A dump of a program's store: image and frame table as bytes, and the files that arguments name for them.
#![tactic(auto)]

mod file;

ghost use Rattle.std.specs.Prelude.{◌≡◌, ◌*◌, length};
ghost use Rattle.dump.specs.Dump.{table_bytes};

use block::bytes::write;
pub use file::{LONGEST_WORD, Named, names_file};

// The image and the table's entries, 8 bytes for each.
#[derive(Clone, Copy)]
pub struct Dump {
    pub image: [u8; 8192],
    pub entries: [u8; 6144],
    ghost image_long: { length image ≡ 8192 },
    ghost entries_long: { length entries ≡ 6144 },
}

impl Dump {
    // The dump of an image and its table.
    pub fn new(image: [u8; 8192], table: &[u64; 768]) -> Dump
        ensures image_value { result.image ≡ image }
        ensures entries_value { result.entries ≡ table_bytes table.now }
    {
        let mut entries = [0u8; 6144];
        put_entries(&mut entries, table);
        Dump { image, entries }
    }
}

// Puts the table's entries into `bytes`, 8 bytes each.
pub fn put_entries(bytes: &mut [u8], table: &[u64])
    requires { length bytes.old ≡ 8 * length table.now }
    ensures { bytes.new ≡ table_bytes table.now }
{
    for (i, &entry) in table.iter().enumerate() {
        write::<8>(bytes, 8 * i, entry);
    }
}
