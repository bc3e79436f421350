// The draws.
ghost use Rattle.std.specs.Prelude.{◌≡◌, Ok};
ghost use Rattle.store.specs.State.{state};
ghost use Rattle.workload.specs.Traffic.{draws_from, started, logged, logged_by, traffic};

use crate::answer::Traffic;
use crate::choosing::choose;
use crate::generator::Generator;
use crate::held::Held;
use crate::making::make;
use crate::recording::{put_record, record_length};
use store::Refusal;

// Draws on an image and table that were set up: each call is made and recorded, until all draws are, or the log has no space for the next.
fn run(
    image: &mut [u8],
    table: &mut [u64],
    mut generator: Generator,
    draws: u64,
    log: &mut [u8],
) -> Traffic
    ensures { logged (Ok result) (state image.new table.new) log.new ≡ logged_by (draws_from draws (started generator.state (state image.old table.old) log.old)) }
{
    let mut held = Held::new();
    let mut written = 0;
    for _ in 0..draws {
        let mut next = generator;
        let c = choose(next.next(), held.live());
        let end = written + record_length(c);
        if log.len() < end {
            return Traffic {
                generator: generator.state,
                written: written as u64,
                full: true,
            };
        }
        put_record(&mut log[written..end], c);
        make(image, table, &mut held, c);
        written = end;
        generator = next;
    }
    Traffic {
        generator: generator.state,
        written: written as u64,
        full: false,
    }
}

// A workload of so many draws on a fresh image and table, recorded in the log.
#[tactic(auto, unfolding(crate::specs::Traffic::traffic))]
pub fn traffic(
    image: &mut [u8],
    table: &mut [u64],
    s: u32,
    generator: u64,
    draws: u64,
    log: &mut [u8],
) -> Result<Traffic, Refusal>
    ensures { logged result (state image.new table.new) log.new ≡ traffic s generator draws (state image.old table.old) log.old }
{
    store::set_up(image, table, s)?;
    Ok(run(image, table, Generator { state: generator }, draws, log))
}
