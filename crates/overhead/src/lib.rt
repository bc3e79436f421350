// The overhead of headers and of padded blocks over a list of sizes.
#![tactic(auto)]

mod answer;
mod padding;
mod reporting;

pub use answer::{Fraction, Refusal, Report};
pub use reporting::report;
