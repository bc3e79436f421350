// A repeatable workload for acceptance: a generator, the calls that its draws make, and their log.
#![tactic(auto)]

mod answer;
mod choosing;
mod drawing;
mod generator;
mod held;
mod making;
mod recording;

pub use answer::Traffic;
pub use drawing::traffic;
