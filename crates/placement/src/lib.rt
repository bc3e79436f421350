// An order of objects with few large frames.
#![tactic(auto)]

mod answer;
mod counting;
mod orders;
mod packed;
mod plan;
mod search;

pub use answer::{Placement, Refusal};
pub use search::order;
