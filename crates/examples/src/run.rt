// The lines of the program: each call has its label, its answer, and a mark where that is not the answer of docs/FORMAT.md.
use crate::print::Refused;
use std::fmt::Display;
use std::rt::Stdout;

// Where lines go; how many calls were made, and how many answered as expected.
#[derive(Drop)]
pub struct Run {
    pub out: Stdout,
    pub made: u64,
    pub met: u64,
}

impl Run {
    // A heading.
    pub fn heading(&self, text: &str) {
        let _ = println!(self.out; "\n{text}");
    }

    // A line beside the calls.
    pub fn note(&self, text: &str) {
        let _ = println!(self.out; "  {text}");
    }

    // Begins a line, which `shows` or `gives` ends.
    pub fn call(&mut self, label: &str) -> &mut Run {
        let _ = print!(self.out; "  {label:<32}");
        self
    }

    // Ends a line that is no call's.
    pub fn shows(&self, what: &impl Display) {
        let _ = println!(self.out; "{what}");
    }

    // Ends the line of a call with its answer, which is marked where it is not the one expected.
    pub fn gives<T: Display + PartialEq + Drop, E: Drop>(
        &mut self,
        answer: Result<T, E>,
        expected: Result<T, E>,
    )
    where
        Refused: From<E>,
    {
        let answer = answer.map_err(Refused::from);
        let met = answer == expected.map_err(Refused::from);
        match answer {
            Ok(value) => self.count(&value, met),
            Err(refused) => self.count(&refused, met),
        }
    }

    // Ends the line of a call, and counts it.
    fn count(&mut self, answer: &impl Display, met: bool) {
        self.made = self.made.saturating_add(1);
        if met {
            self.met = self.met.saturating_add(1);
            self.shows(answer);
        } else {
            self.shows(&format_args!("{answer} -- NOT AS EXPECTED"));
        }
    }
}
