// Writes the log of a repeatable workload to standard output: `traffic [STATE [DRAWS]] [IMAGE=file] [TABLE=file]`, the last
// two for a dump.
#![tactic(auto)]

mod number;
mod recording;

use dump::{LONGEST_WORD, names_file};
use number::read_number;
use recording::recorded;
use std::env::FillError;
use std::rt::Env;

// Whether there is an argument i; argument 0 is the program's name.
fn is_given(rt: &impl Env, i: usize) -> bool {
    !matches!(rt.arg(i, &mut [0u8; 1]), Err(FillError::NotPresent))
}

// Whether argument i may stand where no number may: it is missing, or names a file.
fn is_behind(rt: &impl Env, i: usize) -> bool {
    let mut word = [0u8; LONGEST_WORD];
    match rt.arg(i, &mut word) {
        Ok(n) => names_file(&word[..n]),
        Err(FillError::NotPresent) => true,
        Err(FillError::TooLong) => false,
    }
}

// Argument i as a number; `default` where it is missing or names a file. One of over 64 bytes is refused, as an empty one is.
fn argument(rt: &impl Env, i: usize, default: u64) -> Option<u64> {
    if is_behind(rt, i) {
        return Some(default);
    }
    let mut word = [0u8; 64];
    let n = rt.arg(i, &mut word).ok()?;
    read_number(&word[..n])
}

// The generator's state and the number of draws: the numbers among the arguments, two at most. Those behind them name files, two
// at most. Argument 0 is the program's name.
fn requested(rt: &impl Env) -> Option<(u64, u64)> {
    let is_malformed = is_given(rt, 5)
        || !is_behind(rt, 3)
        || !is_behind(rt, 4)
        || (is_behind(rt, 1) && !is_behind(rt, 2));
    if is_malformed {
        return None;
    }
    Some((argument(rt, 1, 0)?, argument(rt, 2, 1000)?))
}

// A failed write to standard output or standard error goes unsaid, and the exit status is 0 in each case.
fn main(rt: HostRuntime) {
    let Some((generator, draws)) = requested(&rt) else {
        let _ = eprintln!(rt;
            "usage: traffic [STATE [DRAWS]] [IMAGE=file] [TABLE=file]: numbers below 2^64, 0 and 1000 by default; files for a dump"
        );
        return;
    };
    // as much as `replay` reads
    let mut log = [0u8; 65536];
    let recording = recorded(generator, draws, &mut log);
    let _ = rt.write_all(recording.written());
    if recording.is_full() {
        let _ = eprintln!(rt;
            "traffic: the log of 65536 bytes is full (23): the draws behind it were not made"
        );
    }
    for i in 1..5 {
        recording.dump.write_named(&rt, i);
    }
}
