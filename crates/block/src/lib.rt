// The image of the object store, block by block: little-endian fields, runs of bytes and texts, the superblock, block headers, and the walks over the
// blocks.
#![tactic(auto)]

pub mod bytes;
pub mod header;
pub mod order;
pub mod superblock;
pub mod text;
pub mod walk;
