// A recorded call log: its records, running them, and the text of their answers.
#![tactic(auto)]

mod calls;
mod reader;
mod record;
mod running;
mod text;

pub use calls::make;
pub use reader::Reader;
pub use record::{Call, Fault};
pub use running::replay;
