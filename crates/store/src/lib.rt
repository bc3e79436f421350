// The calls of the object store, on one lent image of bytes and one lent frame table.
#![tactic(auto)]

mod access;
mod allocation;
mod answer;
mod casting;
mod comparing;
mod copying;
mod counting;
mod entries;
mod locate;
mod measuring;
mod moving;
mod numbers;
mod opening;
mod release;
mod setup;
mod sweep;
mod text;
mod total;

pub use access::{fill, load, store, store_byte};
pub use allocation::{allocate, allocate_for};
pub use answer::{Refusal, give, returned};
pub use casting::has_type;
pub use comparing::{compare, compared};
pub use copying::copy;
pub use counting::tally;
pub use measuring::{BodyEnds, distances};
pub use moving::offset;
pub use numbers::{allocate_number, free_number};
pub use release::free;
pub use setup::set_up;
pub use sweep::release_cue;
pub use text::copy_text;
pub use total::free_total;
