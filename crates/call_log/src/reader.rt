// The log reader.
ghost use Rattle.std.specs.Prelude.{◌≡◌, ◌-◌, length};
ghost use Rattle.std.specs.Iterator.{at_most};

use crate::record::{Call, Fault, record_at};

// The lent log and the position in it, together. Its items are the calls of the log from there on; a malformed record is the last item.
#[derive(Clone, Copy)]
pub struct Reader<'a> {
    pub log: &'a [u8],
    pub at: usize,
}

impl<'a> Reader<'a> {
    // A reader of the log, at a position.
    pub fn new(log: &'a [u8], at: usize) -> Reader<'a>
        ensures { (result.log ≡ log.entry) × (result.at ≡ at) }
    {
        Reader { log, at }
    }
}

impl Iterator for Reader<'_> {
    ghost use Rattle.call_log.specs.Reader.{GivesNext};

    type Item = Result<Call, Fault>;

    ghost next_gives = { GivesNext };

    ghost remaining = { λ r. at_most (length r.log.now - r.at) };

    #[tactic(auto, using(crate::specs::laws::Records::steps))]
    fn next(&mut self) -> Option<Result<Call, Fault>> {
        if self.log.len() <= self.at {
            return None;
        }
        match record_at(self.log, self.at) {
            Ok((call, behind)) => {
                self.at = behind;
                Some(Ok(call))
            }
            Err(fault) => {
                self.at = self.log.len();
                Some(Err(fault))
            }
        }
    }
}
