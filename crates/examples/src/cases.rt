// The cases: the ends of each rule of docs/FORMAT.md, and each refusal at least once. The slot exponent is 6.
use crate::lent::{Store, order, report, report_of};
use crate::print::{
    Bytes, Counts, Distances, Done, Drawn, Fraction, Order, Overheads, Side, Verdict,
};
use crate::run::Run;
use overhead::Refusal::{BadSize, TooMany};
use placement::Refusal::{BadPlan, NoBudget};
use std::cmp::Ordering;
use store::Refusal::{
    self, BadDescriptor, BadExponent, BadLength, BadSuperblock, BadTag, BadWidth, Dangling, Empty,
    EntryLost, EntryTaken, Leaves, NoSpace, NotBase, OutOfBounds, ShortTable, TooFewEntries,
    TooLarge, Undescribed, Unsound, Unterminated, WrongTotal,
};

// Flag and tag number of the object of 10 bytes, whose header is at 16 and whose body is at 32.
const TEN: u64 = 0x8010_0000_0000_0000;

// Large-framed pointers to 0: the frames of 2^7, 2^8 and 2^31 bytes.
const F7: u64 = 0x0007_0000_0000_0000;

const F8: u64 = 0x0008_0000_0000_0000;

const F31: u64 = 0x001F_0000_0000_0000;

// A small-framed pointer to the last address.
const LAST: u64 = 0x8000_FFFF_FFFF_FFFF;

// A load buffer (type 1, 30 bytes) with two samples (type 5, 12 bytes) at 4 and 16; a sample has numbers of 4 bytes (type 2) at 0 and 8, and one of
// 2 bytes (type 3) at 4.
const TYPES: [u8; 78] = *b"\x0c\x00\x00\x00\x04\x00\x02\x00\x04\x00\x00\x00\
\x0c\x00\x00\x00\x04\x00\x03\x00\x02\x00\x00\x00\
\x1e\x00\x00\x00\x05\x00\x05\x00\x0c\x00\x00\x00\x00\x00\x00\x00\x02\x00\x04\x00\x00\x00\x03\x00\x08\x00\x00\x00\x02\x00\
\x18\x00\x00\x00\x05\x00\x01\x00\x1e\x00\x00\x00\x04\x00\x00\x00\x05\x00\x10\x00\x00\x00\x05\x00";

// All cases.
pub fn all(run: &mut Run, store: &mut Store) {
    openings(run, store);
    access(run, store);
    copies(run, store);
    widths(run, store);
    compares(run, store);
    texts(run, store);
    distances(run, store);
    slot_moves(run, store);
    frame_moves(run, store);
    tags(run, store);
    not_open(run, store);
    frees(run, store);
    fresh(run, store);
    empties(run, store);
    measured_empty(run, store);
    cues(run, store);
    totals(run, store);
    spare_totals(run, store);
    damaged(run, store);
    loads(run, store);
    types(run, store);
    orders(run);
    other_orders(run);
    overheads(run);
}

// Refusals 1, 2 and 3, a store that is set up, and an object of 10 bytes.
fn openings(run: &mut Run, store: &mut Store) {
    run.heading("Cases: set up 1024 bytes and 384 entries, slot exponent 6, but for");
    run.call("slot exponent 5")
        .gives(store.set_up(5), Err(BadExponent));
    run.call("slot exponent 16")
        .gives(store.set_up(16), Err(BadExponent));
    run.call("63 bytes")
        .gives(store.part(63, 384).set_up(6), Err(BadLength));
    run.call("383 entries")
        .gives(store.part(1024, 383).set_up(6), Err(TooFewEntries));
    run.call("nothing").gives(store.set_up(6), Ok(Done(0)));
    run.heading("Cases: an object of 10 bytes, whose body is at 32");
    run.call("allocate 10")
        .gives(store.allocate(10), Ok(Bytes(TEN | 32)));
    run.call("tally")
        .gives(store.tally(), Ok(Counts(1, 10, 982, 16)));
}

// Refusals 13 and 16.
fn access(run: &mut Run, store: &mut Store) {
    run.heading("Cases: load, store and fill in it");
    run.call("load 8 at 34")
        .gives(store.load(TEN | 34, 8), Ok(Bytes(0)));
    run.call("load 8 at 35")
        .gives(store.load(TEN | 35, 8), Err(OutOfBounds));
    run.call("load 1 at 31")
        .gives(store.load(TEN | 31, 1), Err(OutOfBounds));
    run.call("store 256 in 1 at 41")
        .gives(store.store(TEN | 41, 1, 256), Err(TooLarge));
    run.call("store 255 in 1 at 41")
        .gives(store.store(TEN | 41, 1, 255), Ok(Done(0)));
    run.call("store 1 in 1 at 42")
        .gives(store.store(TEN | 42, 1, 1), Err(OutOfBounds));
    run.call("fill 1 at 40 with 7")
        .gives(store.fill(TEN | 40, 1, 7), Ok(Done(0)));
    run.call("load 2 at 40")
        .gives(store.load(TEN | 40, 2), Ok(Bytes(0xFF07)));
}

// Copies that overlap, upwards and downwards; refusals 6 and 13.
fn copies(run: &mut Run, store: &mut Store) {
    run.heading("Cases: copy in it");
    run.call("store 0x04030201 in 4 at 32")
        .gives(store.store(TEN | 32, 4, 0x0403_0201), Ok(Done(0)));
    run.call("copy 4 from 32 to 34")
        .gives(store.copy(TEN | 34, TEN | 32, 4), Ok(Done(0)));
    run.call("load 8 at 32")
        .gives(store.load(TEN | 32, 8), Ok(Bytes(0x0000_0403_0201_0201)));
    run.call("copy 4 from 34 to 33")
        .gives(store.copy(TEN | 33, TEN | 34, 4), Ok(Done(0)));
    run.call("load 8 at 32")
        .gives(store.load(TEN | 32, 8), Ok(Bytes(0x0000_0404_0302_0101)));
    run.call("copy 0 from 34 to 33")
        .gives(store.copy(TEN | 33, TEN | 34, 0), Err(Empty));
    run.call("copy 4 from 39 to 33")
        .gives(store.copy(TEN | 33, TEN | 39, 4), Err(OutOfBounds));
}

// Numbers of 3 and of 5 to 7 bytes, and the object's last three; widths that are none: refusals 13, 14 and 16.
fn widths(run: &mut Run, store: &mut Store) {
    run.heading("Cases: the widths 1 to 8 in it");
    run.call("store 0xffffff in 3 at 39")
        .gives(store.store(TEN | 39, 3, 0xFF_FFFF), Ok(Done(0)));
    run.call("load 3 at 39")
        .gives(store.load(TEN | 39, 3), Ok(Bytes(0xFF_FFFF)));
    run.call("load 3 at 40")
        .gives(store.load(TEN | 40, 3), Err(OutOfBounds));
    run.call("store 0xffffff in 3 at 40")
        .gives(store.store(TEN | 40, 3, 0xFF_FFFF), Err(OutOfBounds));
    run.call("store 0x1000000 in 3 at 39")
        .gives(store.store(TEN | 39, 3, 0x100_0000), Err(TooLarge));
    run.call("store bytes 1 to 7 in 7 at 32")
        .gives(store.store(TEN | 32, 7, 0x07_0605_0403_0201), Ok(Done(0)));
    run.call("load 5 at 32")
        .gives(store.load(TEN | 32, 5), Ok(Bytes(0x05_0403_0201)));
    run.call("load 6 at 32")
        .gives(store.load(TEN | 32, 6), Ok(Bytes(0x0605_0403_0201)));
    run.call("load 7 at 32")
        .gives(store.load(TEN | 32, 7), Ok(Bytes(0x07_0605_0403_0201)));
    run.call("load 8 at 32")
        .gives(store.load(TEN | 32, 8), Ok(Bytes(0xFF07_0605_0403_0201)));
    run.call("load 0 at 32")
        .gives(store.load(TEN | 32, 0), Err(BadWidth));
    run.call("load 9 at 32")
        .gives(store.load(TEN | 32, 9), Err(BadWidth));
    run.call("load 2^32 at 32")
        .gives(store.load(TEN | 32, 1 << 32), Err(BadWidth));
    run.call("load 2^64-1 at 32")
        .gives(store.load(TEN | 32, u64::MAX), Err(BadWidth));
    run.call("store in 9, tag out of range")
        .gives(store.store(6 << 48, 9, 0), Err(BadWidth));
}

// Runs that differ in a byte above 127, and in none; refusals 6 and 13.
fn compares(run: &mut Run, store: &mut Store) {
    run.heading("Cases: compare in it, where 0x7f stands at 32 and 0x80 at 33");
    let _ = store.store(TEN | 32, 2, 0x807F);
    run.call("compare 1 at 32 with 33").gives(
        store.compare(TEN | 32, TEN | 33, 1),
        Ok(Side(Ordering::Less)),
    );
    run.call("compare 1 at 33 with 32").gives(
        store.compare(TEN | 33, TEN | 32, 1),
        Ok(Side(Ordering::Greater)),
    );
    run.call("compare 10 at 32 with itself").gives(
        store.compare(TEN | 32, TEN | 32, 10),
        Ok(Side(Ordering::Equal)),
    );
    run.call("compare 0 at 32 with itself")
        .gives(store.compare(TEN | 32, TEN | 32, 0), Err(Empty));
    run.call("compare 11 at 32 with itself")
        .gives(store.compare(TEN | 32, TEN | 32, 11), Err(OutOfBounds));
    run.call("compare 10 at 33 with 32")
        .gives(store.compare(TEN | 33, TEN | 32, 10), Err(OutOfBounds));
}

// Texts of five letters and of none, overlapping both ways, onto itself, in a target that is one byte too small; refusals 13 and 20.
fn texts(run: &mut Run, store: &mut Store) {
    run.heading("Cases: copy a text in it, where \"hello\" and a zero byte stand at 32");
    let _ = store.store(TEN | 32, 8, 0x6F_6C6C_6568);
    run.call("text from 32 to 34")
        .gives(store.copy_text(TEN | 34, TEN | 32), Ok(6));
    run.call("load 8 at 34")
        .gives(store.load(TEN | 34, 8), Ok(Bytes(0xFFFF_006F_6C6C_6568)));
    run.call("text from 34 to 32")
        .gives(store.copy_text(TEN | 32, TEN | 34), Ok(6));
    run.call("load 8 at 32")
        .gives(store.load(TEN | 32, 8), Ok(Bytes(0x6F_006F_6C6C_6568)));
    run.call("text from 32 to 32")
        .gives(store.copy_text(TEN | 32, TEN | 32), Ok(6));
    run.call("text from 32 to 37")
        .gives(store.copy_text(TEN | 37, TEN | 32), Err(OutOfBounds));
    run.call("text from 32 to 36")
        .gives(store.copy_text(TEN | 36, TEN | 32), Ok(6));
    run.call("load 8 at 32")
        .gives(store.load(TEN | 32, 8), Ok(Bytes(0x6C6C_6568_6C6C_6568)));
    run.call("text from 41 to 32")
        .gives(store.copy_text(TEN | 32, TEN | 41), Ok(1));
    run.call("text from 42 to 32")
        .gives(store.copy_text(TEN | 32, TEN | 42), Err(OutOfBounds));
    let _ = store.fill(TEN | 32, 10, 7);
    run.call("text from 32, ten bytes of 7")
        .gives(store.copy_text(TEN | 42, TEN | 32), Err(Unterminated));
}

// Distances inside the body, before and behind it up to the slot's ends, and from an address that leads to no object: refusals 10 and 11.
fn distances(run: &mut Run, store: &mut Store) {
    run.heading(
        "Cases: distances from its start at 32 and to its end at 42, in the slot from 0 to 63",
    );
    run.call("at 32, the base")
        .gives(store.distances(TEN | 32), Ok(Distances(0, 10)));
    run.call("at 31, one before")
        .gives(store.distances(TEN | 31), Ok(Distances(-1, 11)));
    run.call("at 42, the end")
        .gives(store.distances(TEN | 42), Ok(Distances(10, 0)));
    run.call("at 43, one past")
        .gives(store.distances(TEN | 43), Ok(Distances(11, -1)));
    run.call("at 16, its header")
        .gives(store.distances(TEN | 16), Ok(Distances(-16, 26)));
    run.call("at 0, the slot's first byte")
        .gives(store.distances(TEN), Ok(Distances(-32, 42)));
    run.call("at 63, the slot's last byte")
        .gives(store.distances(TEN | 63), Ok(Distances(31, -21)));
    run.call("at 64, in the next slot")
        .gives(store.distances(TEN | 64), Err(Dangling));
    run.call("at 1024, past the image")
        .gives(store.distances(TEN | 1024), Err(Dangling));
    run.call("pointer 0").gives(store.distances(0), Err(BadTag));
}

// Moves of small-framed pointers: refusal 12.
fn slot_moves(run: &mut Run, store: &mut Store) {
    run.heading("Cases: move its pointer from 32, in the slot from 0 to 63");
    run.call("by 31")
        .gives(store.offset(TEN | 32, 31), Ok(Bytes(TEN | 63)));
    run.call("by 32")
        .gives(store.offset(TEN | 32, 32), Err(Leaves));
    run.call("by -32")
        .gives(store.offset(TEN | 32, -32), Ok(Bytes(TEN)));
    run.call("by -33")
        .gives(store.offset(TEN | 32, -33), Err(Leaves));
    run.call("by 0")
        .gives(store.offset(TEN | 32, 0), Ok(Bytes(TEN | 32)));
    run.call("by 2^63-1")
        .gives(store.offset(TEN | 32, i64::MAX), Err(Leaves));
    run.call("by -2^63")
        .gives(store.offset(TEN | 32, i64::MIN), Err(Leaves));
    run.heading("Cases: move a pointer from 2^48-1, in the last slot");
    run.call("by 0")
        .gives(store.offset(LAST, 0), Ok(Bytes(LAST)));
    run.call("by 1").gives(store.offset(LAST, 1), Err(Leaves));
    run.call("by -63")
        .gives(store.offset(LAST, -63), Ok(Bytes(LAST ^ 63)));
    run.call("by -64")
        .gives(store.offset(LAST, -64), Err(Leaves));
}

// Moves in frames larger than a slot.
fn frame_moves(run: &mut Run, store: &mut Store) {
    run.heading("Cases: move a pointer from 142, in the frame of 2^8 bytes from 0 to 255");
    run.call("by 113")
        .gives(store.offset(F8 | 142, 113), Ok(Bytes(F8 | 255)));
    run.call("by 114")
        .gives(store.offset(F8 | 142, 114), Err(Leaves));
    run.call("by -142")
        .gives(store.offset(F8 | 142, -142), Ok(Bytes(F8)));
    run.call("by -143")
        .gives(store.offset(F8 | 142, -143), Err(Leaves));
    run.heading("Cases: move a pointer from 0, in the frame of 2^31 bytes");
    run.call("by 2^31-1").gives(store.offset(F31, 0x7FFF_FFFF), Ok(Bytes(F31 | 0x7FFF_FFFF)));
    run.call("by 2^31")
        .gives(store.offset(F31, 0x8000_0000), Err(Leaves));
}

// The ends of the tag numbers: refusal 10.
fn tags(run: &mut Run, store: &mut Store) {
    run.heading("Cases: move a pointer to 0 by 0, with");
    run.call("flag 1, tag 63")
        .gives(store.offset(0x803F << 48, 0), Ok(Bytes(0x803F << 48)));
    run.call("flag 1, tag 64")
        .gives(store.offset(0x8040 << 48, 0), Err(BadTag));
    run.call("flag 0, tag 6")
        .gives(store.offset(6 << 48, 0), Err(BadTag));
    run.call("flag 0, tag 7")
        .gives(store.offset(F7, 0), Ok(Bytes(F7)));
    run.call("flag 0, tag 31")
        .gives(store.offset(F31, 0), Ok(Bytes(F31)));
    run.call("flag 0, tag 32")
        .gives(store.offset(32 << 48, 0), Err(BadTag));
}

// Refusals 4 and 5.
fn not_open(run: &mut Run, store: &mut Store) {
    run.heading("Cases: load 1 at 32, but with");
    run.call("15 image bytes")
        .gives(store.part(15, 384).load(TEN | 32, 1), Err(BadSuperblock));
    run.call("1023 image bytes").gives(store.part(1023, 384).load(TEN | 32, 1), Err(BadSuperblock));
    run.call("383 table entries")
        .gives(store.part(1024, 383).load(TEN | 32, 1), Err(ShortTable));
}

// Refusals 11 and 15, and a free that is accepted once; sizes that find no room: 8.
fn frees(run: &mut Run, store: &mut Store) {
    run.heading("Cases: free");
    run.call("at 33, not the base")
        .gives(store.free(TEN | 33), Err(NotBase));
    run.call("through a zero entry")
        .gives(store.free(F7 | 32), Err(Dangling));
    run.call("at 32").gives(store.free(TEN | 32), Ok(Done(0)));
    run.call("tally")
        .gives(store.tally(), Ok(Counts(0, 0, 1008, 0)));
    run.call("at 32 again")
        .gives(store.free(TEN | 32), Err(Dangling));
    run.call("distances at 32")
        .gives(store.distances(TEN | 32), Err(Dangling));
    run.heading("Cases: allocate, with 1008 bytes free");
    run.call("993").gives(store.allocate(993), Err(NoSpace));
    run.call("2^32-1")
        .gives(store.allocate(u32::MAX), Err(NoSpace));
}

// Sets a store up, and allocates.
fn first(
    run: &mut Run,
    store: &mut Store,
    label: &str,
    size: u32,
    expected: Result<Bytes, Refusal>,
) {
    let _ = store.set_up(6);
    run.call(label).gives(store.allocate(size), expected);
}

// The last size that is small-framed, and the last that fits; tally on 64 bytes, once with spare ones.
fn fresh(run: &mut Run, store: &mut Store) {
    run.heading("Cases: allocate from a fresh image");
    first(run, store, "31, from 1024 bytes", 31, Ok(Bytes(TEN | 32)));
    first(run, store, "32, from 1024 bytes", 32, Ok(Bytes(F7 | 32)));
    let mut store = store.part(64, 48);
    first(
        run,
        &mut store,
        "16, from 64 bytes",
        16,
        Ok(Bytes(TEN | 32)),
    );
    run.call("tally")
        .gives(store.tally(), Ok(Counts(1, 16, 16, 16)));
    first(
        run,
        &mut store,
        "17, from 64 bytes",
        17,
        Ok(Bytes(TEN | 32)),
    );
    run.call("tally: 15 bytes are spare")
        .gives(store.tally(), Ok(Counts(1, 17, 0, 31)));
    first(run, &mut store, "32, from 64 bytes", 32, Ok(Bytes(F7 | 32)));
    run.call("tally")
        .gives(store.tally(), Ok(Counts(1, 32, 0, 16)));
    first(run, &mut store, "33, from 64 bytes", 33, Err(NoSpace));
}

// An object of no bytes whose base is the image's end: each read and write is refused, and free and release take it out.
fn empties(run: &mut Run, store: &mut Store) {
    run.heading("Cases: objects of no bytes, from 64 bytes");
    let mut store = store.part(64, 48);
    first(run, &mut store, "0, from 64 bytes", 0, Ok(Bytes(TEN | 32)));
    run.heading(
        "Cases: 16 bytes at 32, and an object of no bytes behind them, whose base is at 64",
    );
    let _ = store.set_up(6);
    let _ = store.allocate(16);
    run.call("allocate 0")
        .gives(store.allocate(0), Ok(Bytes(F7 | 64)));
    run.call("tally")
        .gives(store.tally(), Ok(Counts(2, 16, 0, 32)));
    run.call("free total").gives(store.free_total(), Ok(0));
    run.call("allocate 0 again")
        .gives(store.allocate(0), Err(NoSpace));
    run.call("load 1 at 64")
        .gives(store.load(F7 | 64, 1), Err(OutOfBounds));
    run.call("store 1 in 1 at 64")
        .gives(store.store(F7 | 64, 1, 1), Err(OutOfBounds));
    run.call("fill 1 at 64 with 7")
        .gives(store.fill(F7 | 64, 1, 7), Err(OutOfBounds));
    run.call("fill 0 at 64 with 7")
        .gives(store.fill(F7 | 64, 0, 7), Err(Empty));
    run.call("copy 1 from 32 to 64")
        .gives(store.copy(F7 | 64, TEN | 32, 1), Err(OutOfBounds));
    run.call("copy 1 from 64 to 32")
        .gives(store.copy(TEN | 32, F7 | 64, 1), Err(OutOfBounds));
    run.call("text from 32 to 64")
        .gives(store.copy_text(F7 | 64, TEN | 32), Err(OutOfBounds));
    run.call("text from 64 to 32")
        .gives(store.copy_text(TEN | 32, F7 | 64), Err(OutOfBounds));
    run.call("move by 63")
        .gives(store.offset(F7 | 64, 63), Ok(Bytes(F7 | 127)));
    run.call("move by 64")
        .gives(store.offset(F7 | 64, 64), Err(Leaves));
    run.call("free at 65, not the base")
        .gives(store.free(F7 | 65), Err(NotBase));
    run.call("free at 64")
        .gives(store.free(F7 | 64), Ok(Done(0)));
    run.call("load 1 at 64")
        .gives(store.load(F7 | 64, 1), Err(Dangling));
    run.call("allocate 0 for cue 7")
        .gives(store.allocate_for(0, 7), Ok(Bytes(F7 | 64)));
    run.call("release 7").gives(store.release(7), Ok(1));
    run.call("free total").gives(store.free_total(), Ok(16));
}

// Both ends of an object of no bytes are its base.
fn measured_empty(run: &mut Run, store: &mut Store) {
    run.heading("Cases: distances and compare at an object of no bytes, whose base is at 32");
    let _ = store.set_up(6);
    let _ = store.allocate(0);
    run.call("at 32, the base and the end")
        .gives(store.distances(TEN | 32), Ok(Distances(0, 0)));
    run.call("at 31, one before")
        .gives(store.distances(TEN | 31), Ok(Distances(-1, 1)));
    run.call("at 33, one past")
        .gives(store.distances(TEN | 33), Ok(Distances(1, -1)));
    run.call("compare 1 at 32 with itself")
        .gives(store.compare(TEN | 32, TEN | 32, 1), Err(OutOfBounds));
    run.call("compare 0 at 32 with itself")
        .gives(store.compare(TEN | 32, TEN | 32, 0), Err(Empty));
}

// Four buffers for two cues, one behind the other; the first has its line.
fn two_cues(run: &mut Run, store: &mut Store) {
    run.heading("Cases: buffers of 10, 20, 32 and 1 bytes for the cues 7, 9, 7 and 9");
    let _ = store.set_up(6);
    run.call("allocate 10 for cue 7")
        .gives(store.allocate_for(10, 7), Ok(Bytes(TEN | 32)));
    let _ = store.allocate_for(20, 9);
    let _ = store.allocate_for(32, 7);
    let _ = store.allocate_for(1, 9);
}

// Releases of both cues, of one that has no object left, and of a buffer without a cue; then of one whose entry is lost, and with an unsound header behind
// it: refusals 21 and 7.
fn cues(run: &mut Run, store: &mut Store) {
    two_cues(run, store);
    run.call("release 7").gives(store.release(7), Ok(2));
    run.call("tally")
        .gives(store.tally(), Ok(Counts(2, 21, 955, 32)));
    run.call("release 7 again").gives(store.release(7), Ok(0));
    run.call("release 9").gives(store.release(9), Ok(2));
    run.call("tally")
        .gives(store.tally(), Ok(Counts(0, 0, 1008, 0)));
    let _ = store.allocate(10);
    run.call("release 0, of no cue")
        .gives(store.release(0), Ok(1));
    run.heading("Cases: a buffer of 32 bytes for the cue 9, from 16 to 63, its entry zeroed");
    let _ = store.allocate_for(32, 9);
    store.damage_entry(0);
    run.call("release 9")
        .gives(store.release(9), Err(EntryLost));
    store.damage(68, &[9]);
    run.call("release 9, kind 9 at 64")
        .gives(store.release(9), Err(Unsound));
}

// The free total after one object more.
fn taken(run: &mut Run, store: &mut Store, label: &str, size: u32, cue: u32, total: u64) {
    let _ = store.allocate_for(size, cue);
    run.call(label).gives(store.free_total(), Ok(total));
}

// The free total beside document 01's four buffers; then overwritten, too low for an allocate, and too high for what is given back: refusal 22.
fn totals(run: &mut Run, store: &mut Store) {
    run.heading(
        "Cases: the free total after buffers of 10, 20, 32 and 1 bytes for the cues 0, 7, 7 and 0",
    );
    let _ = store.set_up(6);
    run.call("fresh").gives(store.free_total(), Ok(1008));
    taken(run, store, "10 bytes more", 10, 0, 982);
    taken(run, store, "20 bytes more", 20, 7, 946);
    taken(run, store, "32 bytes more", 32, 7, 898);
    taken(run, store, "1 byte more", 1, 0, 881);
    run.heading("Cases: the free total overwritten by 0, 2^32-1, 925 and 924");
    store.damage_total(0);
    run.call("0: allocate 10")
        .gives(store.allocate(10), Err(WrongTotal));
    store.damage_total(u32::MAX);
    run.call("2^32-1: free total")
        .gives(store.free_total(), Ok(4294967295));
    run.call("free at 32")
        .gives(store.free(TEN | 32), Err(WrongTotal));
    run.call("release 1, of no object")
        .gives(store.release(1), Err(WrongTotal));
    store.damage_total(925);
    run.call("925: release 7")
        .gives(store.release(7), Err(WrongTotal));
    store.damage_total(924);
    run.call("924: release 7").gives(store.release(7), Ok(2));
    run.call("free total").gives(store.free_total(), Ok(1008));
}

// An object that takes all of an image of 64 bytes, whose extent of 48 is more than header and size: refusal 22.
fn spare_totals(run: &mut Run, store: &mut Store) {
    run.heading("Cases: 17 bytes take all of 64; the free total overwritten by 1 and 47");
    let mut store = store.part(64, 48);
    let _ = store.set_up(6);
    let _ = store.allocate(17);
    run.call("free total").gives(store.free_total(), Ok(0));
    store.damage_total(1);
    run.call("1: free it")
        .gives(store.free(TEN | 32), Err(WrongTotal));
    let _ = store.set_up(6);
    store.damage_total(47);
    run.call("47: allocate 17")
        .gives(store.allocate(17), Err(WrongTotal));
}

// An entry that is taken, a header place near 2^64, and an unsound header: refusals 9, 11 and 7.
fn damaged(run: &mut Run, store: &mut Store) {
    let _ = store.set_up(6);
    run.heading("Cases: a damaged table, 2^64-1 in entry 0");
    store.damage_entry(u64::MAX);
    run.call("allocate 32")
        .gives(store.allocate(32), Err(EntryTaken));
    run.call("load through entry 0")
        .gives(store.load(F7 | 32, 1), Err(Dangling));
    run.heading("Cases: a damaged image, kind 9 in the first header");
    store.damage(20, &[9]);
    run.call("allocate 10")
        .gives(store.allocate(10), Err(Unsound));
    run.call("tally").gives(store.tally(), Err(Unsound));
}

// Loads from the state 0: all draws recorded, a log one byte too short, a log of two records, no draw; refusals 23 and 1.
fn loads(run: &mut Run, store: &mut Store) {
    run.heading("Cases: traffic from the state 0, on 1,024 bytes");
    run.call("8 draws, 128 bytes of log").gives(
        store.traffic(6, 8, &mut [0; 128]),
        Ok(Drawn::All(0xf1bb_cdcb_fa53_e0a8, 128)),
    );
    run.call("tally")
        .gives(store.tally(), Ok(Counts(4, 208, 736, 64)));
    run.call("8 draws, 127 bytes of log").gives(
        store.traffic(6, 8, &mut [0; 127]),
        Ok(Drawn::LogFull(0x5384_5412_7b09_6493, 106)),
    );
    run.call("2^64-1 draws, 32 bytes of log").gives(
        store.traffic(6, u64::MAX, &mut [0; 32]),
        Ok(Drawn::LogFull(0x3c6e_f372_fe94_f82a, 32)),
    );
    run.call("no draw, no log")
        .gives(store.traffic(6, 0, &mut []), Ok(Drawn::All(0, 0)));
    run.call("s = 5")
        .gives(store.traffic(5, 8, &mut [0; 128]), Err(BadExponent));
}

// Type checks of a load buffer: inside its samples, between fields, at its end and before it; with a list that is cut short, and without one; refusals 24, 25,
// 11 and 10.
fn types(run: &mut Run, store: &mut Store) {
    run.heading(
        "Cases: a load buffer of 30 bytes at 32, of type 1, with samples of type 5 at 36 and at 48",
    );
    let _ = store.set_up(6);
    let _ = store.allocate(30);
    run.call("has 1 at 32, its start")
        .gives(store.has_type(&TYPES, TEN | 32, 1), Ok(Verdict(1)));
    run.call("has 5 at 36")
        .gives(store.has_type(&TYPES, TEN | 36, 5), Ok(Verdict(1)));
    run.call("has 2 at 36, in a sample")
        .gives(store.has_type(&TYPES, TEN | 36, 2), Ok(Verdict(1)));
    run.call("has 3 at 40")
        .gives(store.has_type(&TYPES, TEN | 40, 3), Ok(Verdict(1)));
    run.call("has 5 at 48, behind the first")
        .gives(store.has_type(&TYPES, TEN | 48, 5), Ok(Verdict(1)));
    run.call("has 2 at 42, between fields")
        .gives(store.has_type(&TYPES, TEN | 42, 2), Ok(Verdict(0)));
    run.call("has 1 at 36")
        .gives(store.has_type(&TYPES, TEN | 36, 1), Ok(Verdict(0)));
    run.call("has 2 at 60, behind the fields")
        .gives(store.has_type(&TYPES, TEN | 60, 2), Ok(Verdict(0)));
    run.call("has 2 at 62, its end")
        .gives(store.has_type(&TYPES, TEN | 62, 2), Ok(Verdict(0)));
    run.call("has 1 at 31, before it")
        .gives(store.has_type(&TYPES, TEN | 31, 1), Ok(Verdict(0)));
    run.call("has 9 at 32, not listed")
        .gives(store.has_type(&TYPES, TEN | 32, 9), Ok(Verdict(0)));
    run.call("has 1, the list cut to 77 bytes").gives(
        store.has_type(&TYPES[..77], TEN | 32, 1),
        Err(BadDescriptor),
    );
    run.call("has 1, the list cut to 54 bytes").gives(
        store.has_type(&TYPES[..54], TEN | 32, 1),
        Err(Undescribed),
    );
    run.call("has 1, no list")
        .gives(store.has_type(&[], TEN | 32, 1), Err(Undescribed));
    run.call("has 1 at 64, no list")
        .gives(store.has_type(&[], TEN | 64, 1), Err(Dangling));
    run.call("has 1 through 0, no list")
        .gives(store.has_type(&[], 0, 1), Err(BadTag));
    let _ = store.set_up(6);
    let _ = store.allocate(29);
    run.call("29 bytes: has 1")
        .gives(store.has_type(&TYPES, TEN | 32, 1), Err(Undescribed));
}

// Orders of three load buffers, by budget; refusal 27.
fn orders(run: &mut Run) {
    run.heading(
        "Cases: an order with few large frames, of 40000, 20000 and 12000 bytes with s = 15",
    );
    run.call("all 6 orders").gives(
        order(&[40000, 20000, 12000], 15, 6),
        Ok(Order::new(&[1, 2, 0], 1, 6, 1)),
    );
    run.call("the first 3 orders").gives(
        order(&[40000, 20000, 12000], 15, 3),
        Ok(Order::new(&[0, 1, 2], 2, 3, 1)),
    );
    run.call("the first 4 orders").gives(
        order(&[40000, 20000, 12000], 15, 4),
        Ok(Order::new(&[1, 2, 0], 1, 4, 1)),
    );
    run.call("2^64-1 orders").gives(
        order(&[40000, 20000, 12000], 15, u64::MAX),
        Ok(Order::new(&[1, 2, 0], 1, 6, 1)),
    );
    run.call("no order")
        .gives(order(&[40000, 20000, 12000], 15, 0), Err(NoBudget));
}

// The ends of a slot, the last order of all, and eight sizes; refusal 26 in each way.
fn other_orders(run: &mut Run) {
    run.heading("Cases: an order with few large frames, of other sizes with s = 6");
    run.call("31, which a slot holds")
        .gives(order(&[31], 6, 1), Ok(Order::new(&[0], 0, 1, 0)));
    run.call("32, which crosses its end")
        .gives(order(&[32], 6, 1), Ok(Order::new(&[0], 1, 1, 0)));
    run.call("48, which fits no slot")
        .gives(order(&[48], 6, 1), Ok(Order::new(&[0], 1, 1, 1)));
    run.call("15 179 40 268 10").gives(
        order(&[15, 179, 40, 268, 10], 6, 120),
        Ok(Order::new(&[4, 3, 2, 1, 0], 2, 120, 2)),
    );
    run.call("without the last order").gives(
        order(&[15, 179, 40, 268, 10], 6, 119),
        Ok(Order::new(&[0, 1, 2, 3, 4], 3, 119, 2)),
    );
    run.call("eight sizes, all 40320 orders").gives(
        order(&[65, 220, 0, 90, 47, 12, 200, 31], 6, 40320),
        Ok(Order::new(&[2, 1, 5, 6, 4, 0, 7, 3], 4, 40320, 4)),
    );
    run.call("nine sizes").gives(
        order(&[31, 32, 48, 15, 179, 40, 268, 10, 65], 6, 1),
        Err(BadPlan),
    );
    run.call("no size").gives(order(&[], 6, 1), Err(BadPlan));
    run.call("a size of 65536")
        .gives(order(&[31, 65536], 6, 1), Err(BadPlan));
    run.call("s = 5").gives(order(&[31], 5, 1), Err(BadPlan));
    run.call("s = 16").gives(order(&[31], 16, 1), Err(BadPlan));
    run.call("no size and no order")
        .gives(order(&[], 6, 0), Err(BadPlan));
}

// Overheads: none, of five load buffers, at the ends of each rule, and of the longest list; refusals 28 and 29.
fn overheads(run: &mut Run) {
    run.heading("Cases: overhead of headers and of padded blocks, each over raw bytes");
    run.call("no size").gives(
        report(&[]),
        Ok(Overheads {
            raw: 0,
            headed: 0,
            padded: 0,
            end: 0,
            headers: Fraction(0, 1),
            padding: Fraction(0, 1),
        }),
    );
    run.call("10, 20, 30, 100 and 1000 bytes").gives(
        report(&[10, 20, 30, 100, 1000]),
        Ok(Overheads {
            raw: 1160,
            headed: 1240,
            padded: 1232,
            end: 2048,
            headers: Fraction(80, 1160),
            padding: Fraction(72, 1160),
        }),
    );
    run.call("1 byte").gives(
        report(&[1]),
        Ok(Overheads {
            raw: 1,
            headed: 17,
            padded: 16,
            end: 16,
            headers: Fraction(16, 1),
            padding: Fraction(15, 1),
        }),
    );
    run.call("16 bytes").gives(
        report(&[16]),
        Ok(Overheads {
            raw: 16,
            headed: 32,
            padded: 16,
            end: 16,
            headers: Fraction(16, 16),
            padding: Fraction(0, 16),
        }),
    );
    run.call("17 bytes").gives(
        report(&[17]),
        Ok(Overheads {
            raw: 17,
            headed: 33,
            padded: 32,
            end: 32,
            headers: Fraction(16, 17),
            padding: Fraction(15, 17),
        }),
    );
    run.call("65536 bytes").gives(
        report(&[65536]),
        Ok(Overheads {
            raw: 65536,
            headed: 65552,
            padded: 65536,
            end: 65536,
            headers: Fraction(16, 65536),
            padding: Fraction(0, 65536),
        }),
    );
    run.call("1 and 65536 bytes").gives(
        report(&[1, 65536]),
        Ok(Overheads {
            raw: 65537,
            headed: 65569,
            padded: 65552,
            end: 131072,
            headers: Fraction(32, 65537),
            padding: Fraction(15, 65537),
        }),
    );
    run.call("65536 sizes of 65536 bytes").gives(
        report_of::<65536>(65536),
        Ok(Overheads {
            raw: 4294967296,
            headed: 4296015872,
            padded: 4294967296,
            end: 4294967296,
            headers: Fraction(1048576, 4294967296),
            padding: Fraction(0, 4294967296),
        }),
    );
    run.call("65537 sizes of 1 byte")
        .gives(report_of::<65537>(1), Err(TooMany));
    run.call("65537 sizes of 0 bytes")
        .gives(report_of::<65537>(0), Err(TooMany));
    run.call("65536 bytes, and a size of 0")
        .gives(report(&[65536, 0]), Err(BadSize));
    run.call("a size of 65537")
        .gives(report(&[65537]), Err(BadSize));
}
