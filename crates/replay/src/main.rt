// Runs a recorded call log from standard input, and prints the answers. `replay [IMAGE=file] [TABLE=file]`: files for a dump.
#![tactic(auto)]

ghost use Rattle.std.specs.Prelude.{◌≤◌, ◌≡◌, length};
ghost use Rattle.dump.specs.Dump.{table_bytes};
ghost use Rattle.replay.specs.Program.{program_text, program_state};

use dump::Dump;
use std::io::Read;

// What a run prints, and the dump of what it leaves.
#[derive(Drop)]
struct Run<'a> {
    text: &'a [u8],
    dump: Dump,
}

// Runs a log on a fresh store; its text stands at the start of `text`. A log of 65,536 bytes needs 150,739 bytes of text at most.
fn answered<'a>(log: &[u8], text: &'a mut [u8]) -> Run<'a>
    requires { (length log.now ≤ 65536) × (150739 ≤ length text.old) }
    ensures text_value { result.text.now ≡ program_text log.now }
    ensures image_value { result.dump.image ≡ (program_state log.now).image }
    ensures entries_value { result.dump.entries ≡ table_bytes (program_state log.now).table }
{
    let mut image = [0u8; 8192];
    let mut table = [0u64; 768];
    let _ = store::set_up(&mut image, &mut table, 8);
    let bytes = call_log::replay(&mut image, &mut table, log, text);
    Run {
        text: &text[..bytes],
        dump: Dump::new(image, &table),
    }
}

// Reads standard input until `buf` is full, the input ends or a read fails, and returns what it has read, at the start of `buf`.
fn read_input<'a>(rt: &impl Input, buf: &'a mut [u8]) -> &'a [u8]
    ensures { length result.now ≤ length buf.old }
{
    let mut input = rt.reader();
    let mut done = 0;
    while done < buf.len() {
        let Ok(n @ 1..) = input.read(&mut buf[done..]) else {
            break;
        };
        done += n;
    }
    &buf[..done]
}

// A failed write to standard output or standard error goes unsaid, and the exit status is 0 in each case.
fn main(rt: HostRuntime) {
    let mut input = [0u8; 65536];
    let log = read_input(&rt, &mut input);
    let mut text = [0u8; 150739];
    let run = answered(log, &mut text);
    let _ = rt.write_all(run.text);
    for i in 1..3 {
        run.dump.write_named(&rt, i);
    }
}
