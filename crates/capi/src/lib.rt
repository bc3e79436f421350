// The library as C sees it. Each function returns the refusal's number, 0 where the call is accepted; every value
// given through a pointer is 0 where it is refused. The one exception is 23, a full log: what was done and given stands.
#![tactic(auto)]

ghost use Rattle.std.specs.Prelude.{◌≡◌};
ghost use Rattle.store.specs.State.{state};
ghost use Rattle.store.specs.Calls.{set_up, allocate, allocate_for, move, load, store, free, fill, copy, compare, copy_text, release_cue, free_total, tally, distances, has_type};
ghost use Rattle.workload.specs.Traffic.{traffic};
ghost use Rattle.placement.specs.Placement.{placement};
ghost use Rattle.overhead.specs.Overhead.{report};
ghost use Rattle.capi.specs.Exports.{left, left_by, export, exported, answered, exported_answer, compared, exported_comparison, measured, exported_distances, tallied, exported_usage, logged_export, exported_traffic, ordered, exported_placement, reported, exported_report};

use store::{compared, give, returned};

// A fresh store on the image and table.
#[unsafe(no_mangle)]
pub extern "C" fn cue_setup(image: &mut [u8], table: &mut [u64], exponent: u32) -> u32
    ensures { left result image.new table.new ≡ left_by (set_up exponent (state image.old table.old)) }
{
    let a = store::set_up(image, table, exponent);
    returned(&a)
}

// A new object for no cue, which is cue 0; its tagged base goes to `pointer`.
#[unsafe(no_mangle)]
pub extern "C" fn cue_allocate(
    image: &mut [u8],
    table: &mut [u64],
    size: u32,
    ty: u16,
    pointer: &mut u64,
) -> u32
    ensures { export result pointer.new image.new table.new ≡ exported (allocate size ty (state image.old table.old)) }
{
    cue_allocate_for(image, table, size, ty, 0, pointer)
}

// A new object for the cue; its tagged base goes to `pointer`.
#[unsafe(no_mangle)]
pub extern "C" fn cue_allocate_for(
    image: &mut [u8],
    table: &mut [u64],
    size: u32,
    ty: u16,
    cue: u32,
    pointer: &mut u64,
) -> u32
    ensures { export result pointer.new image.new table.new ≡ exported (allocate_for size ty cue (state image.old table.old)) }
{
    store::allocate_number(image, table, size, ty, cue, pointer)
}

// The pointer moved by a distance goes to `moved`.
#[unsafe(no_mangle)]
pub extern "C" fn cue_move(
    image: &[u8],
    table: &[u64],
    pointer: u64,
    distance: i64,
    moved: &mut u64,
) -> u32
    ensures { export result moved.new image.now table.now ≡ exported (move pointer distance (state image.now table.now)) }
{
    // what a refusal gives
    *moved = 0;
    let a = store::offset(image, table, pointer, distance);
    give(a, moved)
}

// The number in `width` bytes goes to `value`.
#[tactic(auto, using(store::specs::laws::Load::load_leaves))]
#[unsafe(no_mangle)]
pub extern "C" fn cue_load(
    image: &[u8],
    table: &[u64],
    pointer: u64,
    width: u64,
    value: &mut u64,
) -> u32
    ensures { export result value.new image.now table.now ≡ exported (load pointer width (state image.now table.now)) }
{
    // what a refusal gives
    *value = 0;
    let a = store::load(image, table, pointer, width);
    give(a, value)
}

// Puts the value into `width` bytes.
#[unsafe(no_mangle)]
pub extern "C" fn cue_store(
    image: &mut [u8],
    table: &[u64],
    pointer: u64,
    width: u64,
    value: u64,
) -> u32
    ensures { left result image.new table.now ≡ left_by (store pointer width value (state image.old table.now)) }
{
    let a = store::store(image, table, pointer, width, value);
    returned(&a)
}

// Ends the life of the object whose base pointer this is.
#[unsafe(no_mangle)]
pub extern "C" fn cue_free(image: &mut [u8], table: &mut [u64], pointer: u64) -> u32
    ensures { left result image.new table.new ≡ left_by (free pointer (state image.old table.old)) }
{
    store::free_number(image, table, pointer)
}

// Ends the lives of all objects of the cue; how many they were goes to `count`.
#[unsafe(no_mangle)]
pub extern "C" fn cue_release(image: &mut [u8], table: &mut [u64], cue: u32, count: &mut u64) -> u32
    ensures { export result count.new image.new table.new ≡ exported (release_cue cue (state image.old table.old)) }
{
    let a = store::release_cue(image, table, cue);
    *count = a.unwrap_or(0);
    returned(&a)
}

// Sets `length` bytes to one value.
#[unsafe(no_mangle)]
pub extern "C" fn cue_fill(
    image: &mut [u8],
    table: &[u64],
    pointer: u64,
    length: u32,
    value: u8,
) -> u32
    ensures { left result image.new table.now ≡ left_by (fill pointer length value (state image.old table.now)) }
{
    let a = store::fill(image, table, pointer, length, value);
    returned(&a)
}

// Copies `length` bytes, as if all of the source were read first.
#[unsafe(no_mangle)]
pub extern "C" fn cue_copy(
    image: &mut [u8],
    table: &[u64],
    target: u64,
    source: u64,
    length: u32,
) -> u32
    ensures { left result image.new table.now ≡ left_by (copy target source length (state image.old table.now)) }
{
    let a = store::copy(image, table, target, source, length);
    returned(&a)
}

// How `length` bytes of the left stand to those of the right goes to `order`: -1, 0 or 1.
#[unsafe(no_mangle)]
pub extern "C" fn cue_compare(
    image: &[u8],
    table: &[u64],
    left: u64,
    right: u64,
    length: u32,
    order: &mut i64,
) -> u32
    ensures { compared result order.new ≡ exported_comparison (compare left right length (state image.now table.now)) }
{
    let c = store::compare(image, table, left, right, length);
    *order = compared(c);
    returned(&c)
}

// Copies the text at the source, its zero byte included; how many bytes it has goes to `copied`.
#[unsafe(no_mangle)]
pub extern "C" fn cue_copy_text(
    image: &mut [u8],
    table: &[u64],
    target: u64,
    source: u64,
    copied: &mut u64,
) -> u32
    ensures { export result copied.new image.new table.now ≡ exported (copy_text target source (state image.old table.now)) }
{
    let a = store::copy_text(image, table, target, source);
    *copied = a.unwrap_or(0);
    returned(&a)
}

// How far the pointer is from the start of its object's body goes to `from_start`, how far from its end to `to_end`.
#[unsafe(no_mangle)]
pub extern "C" fn cue_distances(
    image: &[u8],
    table: &[u64],
    pointer: u64,
    from_start: &mut i64,
    to_end: &mut i64,
) -> u32
    ensures { measured result from_start.new to_end.new ≡ exported_distances (distances pointer (state image.now table.now)) }
{
    // what a refusal gives
    *from_start = 0;
    *to_end = 0;
    match store::distances(image, table, pointer) {
        Ok(ends) => {
            *from_start = ends.from_start;
            *to_end = ends.to_end;
            0
        }
        Err(r) => r.number(),
    }
}

// Whether the object's type has the wanted one at the pointer's distance from the base goes to `yes`: 1, or 0 for no.
#[unsafe(no_mangle)]
pub extern "C" fn cue_has_type(
    image: &[u8],
    table: &[u64],
    descriptors: &[u8],
    pointer: u64,
    wanted: u16,
    yes: &mut u64,
) -> u32
    ensures { answered result yes.new ≡ exported_answer (has_type descriptors.now pointer wanted (state image.now table.now)) }
{
    let a = store::has_type(image, table, descriptors, pointer, wanted);
    *yes = a.unwrap_or(0);
    returned(&a)
}

// The free total in the superblock goes to `total`.
#[unsafe(no_mangle)]
pub extern "C" fn cue_free_total(image: &[u8], table: &[u64], total: &mut u64) -> u32
    ensures { answered result total.new ≡ exported_answer (free_total (state image.now table.now)) }
{
    // what a refusal gives
    *total = 0;
    let a = store::free_total(image, table);
    give(a, total)
}

// Live objects, live bytes, free bytes and overhead bytes.
#[unsafe(no_mangle)]
pub extern "C" fn cue_tally(
    image: &[u8],
    table: &[u64],
    objects: &mut u64,
    live: &mut u64,
    free: &mut u64,
    overhead: &mut u64,
) -> u32
    ensures { tallied result objects.new live.new free.new overhead.new ≡ exported_usage (tally (state image.now table.now)) }
{
    // what a refusal gives
    *objects = 0;
    *live = 0;
    *free = 0;
    *overhead = 0;
    match store::tally(image, table) {
        Ok(counts) => {
            *objects = counts.objects;
            *live = counts.live;
            *free = counts.free;
            *overhead = counts.overhead;
            0
        }
        Err(r) => r.number(),
    }
}

// A repeatable load on a fresh image and table: the generator's state goes to `after`, the bytes of log written to `written`.
#[unsafe(no_mangle)]
pub extern "C" fn cue_traffic(
    image: &mut [u8],
    table: &mut [u64],
    exponent: u32,
    generator: u64,
    draws: u64,
    log: &mut [u8],
    after: &mut u64,
    written: &mut u64,
) -> u32
    ensures { logged_export result after.new written.new image.new table.new log.new ≡ exported_traffic (traffic exponent generator draws (state image.old table.old) log.old) }
{
    match workload::traffic(image, table, exponent, generator, draws, log) {
        Ok(t) => {
            *after = t.generator;
            *written = t.written;
            if t.full { 23 } else { 0 }
        }
        Err(r) => {
            *after = 0;
            *written = 0;
            r.number()
        }
    }
}

// The first best order of the sizes goes to `order`, place i in byte i; its large-framed objects to `large`, the orders tried to `tried`, the floor to `floor`.
#[unsafe(no_mangle)]
pub extern "C" fn cue_order(
    sizes: &[u32],
    exponent: u32,
    budget: u64,
    order: &mut u64,
    large: &mut u64,
    tried: &mut u64,
    floor: &mut u64,
) -> u32
    ensures { ordered result order.new large.new tried.new floor.new ≡ exported_placement (placement exponent sizes.now budget) }
{
    match placement::order(sizes, exponent, budget) {
        Ok(p) => {
            *order = p.order_word();
            *large = p.large;
            *tried = p.tried;
            *floor = p.floor;
            0
        }
        Err(r) => {
            *order = 0;
            *large = 0;
            *tried = 0;
            *floor = 0;
            r.number()
        }
    }
}

// The report of the sizes: raw bytes go to `raw`, those with headers to `headed`, padded ones to `padded`, the end of padded blocks to `end`; then the two overheads.
#[unsafe(no_mangle)]
pub extern "C" fn cue_overhead(
    sizes: &[u32],
    raw: &mut u64,
    headed: &mut u64,
    padded: &mut u64,
    end: &mut u64,
    headers_extra: &mut u64,
    headers_over: &mut u64,
    padded_extra: &mut u64,
    padded_over: &mut u64,
) -> u32
    ensures { reported result raw.new headed.new padded.new end.new headers_extra.new headers_over.new padded_extra.new padded_over.new ≡ exported_report (report sizes.now) }
{
    match overhead::report(sizes) {
        Ok(r) => {
            *raw = r.raw;
            *headed = r.headed;
            *padded = r.padded;
            *end = r.end;
            *headers_extra = r.headers.extra;
            *headers_over = r.headers.over;
            *padded_extra = r.padding.extra;
            *padded_over = r.padding.over;
            0
        }
        Err(r) => {
            *raw = 0;
            *headed = 0;
            *padded = 0;
            *end = 0;
            *headers_extra = 0;
            *headers_over = 0;
            *padded_extra = 0;
            *padded_over = 0;
            r.number()
        }
    }
}
