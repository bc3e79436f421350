// The text of answers, in ASCII, put into a buffer.
ghost use Rattle.std.specs.Prelude.{◌+◌, ◌≤◌, ◌<◌, ◌≡◌, [], ◌∷◌, length};
ghost use Rattle.store.specs.State.{returned, value};
ghost use Rattle.call_log.specs.Records.{kind_number};
ghost use Rattle.call_log.specs.Text.{digit, hexadecimal, decimal, line_of, fault_line};
ghost use Rattle.call_log.specs.Buffer.{Puts};

use crate::record::{Fault, Kind};
use store::{Refusal, returned};

// A buffer, of which the first `at` bytes are put.
#[derive(Drop)]
pub struct Text<'a> {
    pub buffer: &'a mut [u8],
    pub at: usize,
}

// A digit below 16.
#[tactic(auto, unfolding(crate::specs::Text::digit))]
fn digit(d: u64) -> u8
    requires { d < 16 }
    ensures { result ≡ digit d }
{
    if d < 10 {
        b'0' + d as u8
    } else {
        b'A' + (d - 10) as u8
    }
}

impl Text<'_> {
    // Puts a piece.
    #[tactic(auto, unfolding(block::specs::Bytes::put))]
    fn put(&mut self, piece: &[u8])
        requires { self.old.at + length piece.now ≤ length self.old.buffer.now }
        ensures { Puts self.old piece.now self.new }
    {
        let end = self.at + piece.len();
        self.buffer[self.at..end].copy_from_slice(piece);
        self.at = end;
    }

    // Puts the 16 hexadecimal digits of v.
    fn put_hexadecimal(&mut self, v: u64)
        requires { self.old.at + 16 ≤ length self.old.buffer.now }
        ensures { Puts self.old (hexadecimal 16 v) self.new }
    {
        for k in (0..16u32).rev() {
            self.put(&[digit((v >> (4 * k)) % 16)]);
        }
    }

    // Puts a number below 100 in decimal.
    #[tactic(auto, using(crate::proofs::Texts::decimal_one, crate::proofs::Texts::decimal_two))]
    fn put_decimal(&mut self, n: u64)
        requires { (n < 100) × (self.old.at + 2 ≤ length self.old.buffer.now) }
        ensures digits { Puts self.old (decimal n) self.new }
        ensures few { self.new.at ≤ self.old.at + 2 }
    {
        if n < 10 {
            self.put(&[digit(n)]);
        } else {
            self.put(&[digit(n / 10), digit(n % 10)]);
        }
    }

    // Puts the line of a call.
    #[tactic(auto, using(crate::proofs::Texts::small))]
    pub fn put_answer(&mut self, kind: Kind, answer: Result<u64, Refusal>)
        requires { self.old.at + 23 ≤ length self.old.buffer.now }
        ensures line { Puts self.old (line_of (kind_number kind) (returned answer) (value answer)) self.new }
        ensures few { self.new.at ≤ self.old.at + 23 }
    {
        self.put_decimal(kind as u64);
        self.put(b" ");
        self.put_decimal(returned(&answer) as u64);
        self.put(b" ");
        self.put_hexadecimal(answer.unwrap_or(0));
        self.put(b"\n");
    }

    // Puts the line of a malformed record.
    #[tactic(auto, using(crate::proofs::Texts::small))]
    pub fn put_fault(&mut self, f: Fault)
        requires { self.old.at + 7 ≤ length self.old.buffer.now }
        ensures line { Puts self.old (fault_line f) self.new }
        ensures few { self.new.at ≤ self.old.at + 7 }
    {
        self.put(b"log ");
        self.put_decimal(f as u64);
        self.put(b"\n");
    }
}
