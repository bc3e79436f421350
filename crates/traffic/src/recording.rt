// The workload that the program records.
ghost use Rattle.std.specs.Prelude.{◌≡◌, ◌≤◌, length, take};
ghost use Rattle.dump.specs.Dump.{table_bytes};
ghost use Rattle.workload.specs.Traffic.{bytes_written};
ghost use Rattle.traffic.specs.Program.{program_run, is_full};

use dump::Dump;
use store::Refusal;
use workload::Traffic;

// A workload's answer, its whole log, and the dump of what it leaves.
#[derive(Clone, Copy)]
pub struct Recording<'a> {
    pub answer: Result<Traffic, Refusal>,
    pub log: &'a [u8],
    pub dump: Dump,
    ghost written_inside: { bytes_written answer ≤ length log.now },
}

impl Recording<'_> {
    // The bytes of log that the workload has written.
    pub fn written(&self) -> &[u8]
        ensures { result.now ≡ take (bytes_written self.now.answer) self.now.log.now }
    {
        &self.log[..count(self.answer)]
    }

    // Whether the log has no space for the next record.
    pub fn is_full(&self) -> bool
        ensures { result ≡ is_full self.now.answer }
    {
        matches!(self.answer, Ok(Traffic { full: true, .. }))
    }
}

// Records a workload on an image of its own.
pub fn recorded(generator: u64, draws: u64, log: &mut [u8]) -> Recording<'_>
    ensures answer_value { result.answer ≡ (program_run generator draws log.old).answer }
    ensures log_after { result.log.now ≡ (program_run generator draws log.old).log }
    ensures image_value { result.dump.image ≡ (program_run generator draws log.old).after.image }
    ensures entries_value { result.dump.entries ≡ table_bytes (program_run generator draws log.old).after.table }
{
    let mut image = [0u8; 8192];
    let mut table = [0u64; 768];
    let answer = workload::traffic(&mut image, &mut table, 8, generator, draws, log);
    Recording {
        answer,
        log,
        dump: Dump::new(image, &table),
    }
}

// How many bytes of log a workload has written.
fn count(answer: Result<Traffic, Refusal>) -> usize
    ensures { result ≡ bytes_written answer }
{
    match answer {
        Ok(t) => t.written as usize,
        Err(_) => 0,
    }
}
