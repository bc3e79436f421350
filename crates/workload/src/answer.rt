// What the call `traffic` answers where set-up is accepted.

// The generator's state after the last recorded draw, the bytes of log written, and whether the log has no space for the record of a next draw.
#[derive(Clone, Copy)]
pub struct Traffic {
    pub generator: u64,
    pub written: u64,
    pub full: bool,
}
