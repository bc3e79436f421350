// Frame arithmetic: frames, tagged pointers, wrapper frames and their table entries.
#![tactic(auto)]

mod number;
mod parts;
mod tag;

pub use number::{frame_number, frame_start, same_frame};
pub use parts::Pointer;
pub use tag::{Tagged, entry_index, tag_object, used_entries};
