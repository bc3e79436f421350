// The store at work: a story of four load buffers, then the cases of docs/FORMAT.md. Each call has its expected answer beside it, and the
// last line counts how many gave it.
#![tactic(auto)]

mod cases;
mod lent;
mod print;
mod run;
mod story;

use lent::Store;
use run::Run;

fn main(rt: HostRuntime) {
    let out = rt.stdout();
    let _ = println!(out; "CueLedger's object store");
    let mut image = [7; 1024];
    let mut table = [9; 384];
    let mut store = Store {
        image: &mut image,
        table: &mut table,
    };
    let mut run = Run {
        out,
        made: 0,
        met: 0,
    };
    story::tell(&mut run, &mut store);
    cases::all(&mut run, &mut store);
    let Run { made, met, .. } = run;
    let _ = println!(out; "\n{made} calls, {met} answered as docs/FORMAT.md says");
}
