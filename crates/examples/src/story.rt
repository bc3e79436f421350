// Four load buffers of a show, from set-up to the tally: the worked example of docs/FORMAT.md.
use crate::lent::Store;
use crate::print::{Bytes, Counts, Distances, Done, Entry, Parts};
use crate::run::Run;
use store::Refusal::{Dangling, OutOfBounds};

// The pointers to the four buffers; and of the one of 20 bytes, to its byte 17 and to its frame's first byte.
const TEN: u64 = 0x8010_0000_0000_0020;

const TWENTY: u64 = 0x0007_0000_0000_003A;

const THIRTY_TWO: u64 = 0x800E_0000_0000_005E;

const ONE: u64 = 0x0008_0000_0000_008E;

const STRAY: u64 = 0x0007_0000_0000_004B;

const FRAME: u64 = 0x0007_0000_0000_0000;

// The whole story.
pub fn tell(run: &mut Run, store: &mut Store) {
    allocated(run, store);
    used(run, store);
    measured(run, store);
    freed(run, store);
}

// A buffer of this size is allocated, and its pointer shown in parts.
fn buffer(run: &mut Run, store: &mut Store, label: &str, size: u32, expected: u64) {
    let answer = store.allocate(size);
    let table = &*store.table;
    run.call(label).gives(
        answer.map(|Bytes(pointer)| Parts { pointer, table }),
        Ok(Parts {
            pointer: expected,
            table,
        }),
    );
}

// The buffers are allocated.
fn allocated(run: &mut Run, store: &mut Store) {
    run.heading("Set up: an image of 1024 bytes, slot exponent 6, a table of 384 entries");
    run.call("set up").gives(store.set_up(6), Ok(Done(0)));
    run.heading("Allocate: four load buffers, one behind the other");
    buffer(run, store, "10 bytes", 10, TEN);
    buffer(run, store, "20 bytes", 20, TWENTY);
    buffer(run, store, "32 bytes", 32, THIRTY_TWO);
    buffer(run, store, "1 byte", 1, ONE);
    run.note("Flag 1: the tag is the header's distance from the start of its slot of 64 bytes.");
    run.note(
        "Flag 0: the tag is the exponent of a larger frame, and the table has the header's place.",
    );
}

// A load of 1250 kg is written and read back, and a pointer runs too far.
fn used(run: &mut Run, store: &mut Store) {
    run.heading("Write a load of 1250 kg into the buffer of 20 bytes, and read it back");
    run.call("store 1250 in 4 bytes")
        .gives(store.store(TWENTY, 4, 1250), Ok(Done(0)));
    let kilograms = store.load(TWENTY, 4).map(|Bytes(number)| number);
    run.call("load 4 bytes").gives(kilograms, Ok(1250));
    run.heading("A stray read: of the 4 bytes from byte 17 on, the last is outside");
    run.call("move the pointer by 17")
        .gives(store.offset(TWENTY, 17), Ok(Bytes(STRAY)));
    run.call("load 4 bytes there")
        .gives(store.load(STRAY, 4), Err(OutOfBounds));
}

// How far pointers are from both ends of a buffer: byte 17 has 3 bytes left, and the frame begins before the buffer does.
fn measured(run: &mut Run, store: &mut Store) {
    run.heading("Distances: from the start of the buffer of 20 bytes, and to its end");
    run.call("at its base")
        .gives(store.distances(TWENTY), Ok(Distances(0, 20)));
    run.call("at byte 17")
        .gives(store.distances(STRAY), Ok(Distances(17, 3)));
    run.call("at its frame's first byte")
        .gives(store.distances(FRAME), Ok(Distances(-58, 78)));
}

// A buffer is given back, and what is in use is counted.
fn freed(run: &mut Run, store: &mut Store) {
    run.heading("Free the buffer of 20 bytes");
    run.call("free").gives(store.free(TWENTY), Ok(Done(0)));
    run.call("its table entry").shows(&Entry {
        table: store.table,
        at: 0,
    });
    run.call("load through its pointer")
        .gives(store.load(TWENTY, 4), Err(Dangling));
    run.call("distances of its pointer")
        .gives(store.distances(TWENTY), Err(Dangling));
    run.heading("Tally: what is in use; and the free total alone");
    run.call("tally")
        .gives(store.tally(), Ok(Counts(3, 43, 917, 48)));
    run.call("free total").gives(store.free_total(), Ok(917));
}
