// Running a log.
ghost use Rattle.std.specs.Prelude.{◌≡◌, ◌≤◌, length, take};
ghost use Rattle.store.specs.State.{state};
ghost use Rattle.call_log.specs.Run.{run_over};
ghost use Rattle.call_log.specs.Text.{printed, text_room};

use crate::calls::make;
use crate::reader::Reader;
use crate::text::Text;

// Makes the calls of a log and puts what is to be printed at the start of `text`; its length.
pub fn replay(image: &mut [u8], table: &mut [u64], log: &[u8], text: &mut [u8]) -> usize
    requires { text_room (length log.now) ≤ length text.old }
    ensures upper_bound { result ≤ length text.new }
    ensures text_after { take result text.new ≡ printed (run_over log.now (state image.old table.old)) }
    ensures table_after { state image.new table.new ≡ (run_over log.now (state image.old table.old)).after }
{
    let mut out = Text {
        buffer: text,
        at: 0,
    };
    for record in Reader::new(log, 0) {
        match record {
            Ok(call) => {
                let answer = make(image, table, call);
                out.put_answer(call.kind(), answer);
            }
            Err(fault) => out.put_fault(fault),
        }
    }
    out.at
}
