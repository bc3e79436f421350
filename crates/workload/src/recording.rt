// The record of the call that a draw asks for.
ghost use Rattle.std.specs.Prelude.{◌≡◌, ◌≤◌, length};
ghost use Rattle.call_log.specs.Written.{record_of};
ghost use Rattle.workload.specs.Choice.{call_of};

use crate::choosing::Choice;
use block::bytes::write;

// How long it is: 22 bytes at most.
#[tactic(auto, using(crate::proofs::Writers::length_allocate, crate::proofs::Writers::length_free, crate::proofs::Writers::length_store))]
pub fn record_length(c: Choice) -> usize
    ensures value { result ≡ length (record_of (call_of c)) }
    ensures most { result ≤ 22 }
{
    match c {
        Choice::Allocate(_) => 10,
        Choice::Free(_, _) => 12,
        Choice::Store(_, _) => 22,
    }
}

// Fills its space with it: its length, the call's number, and the call's arguments.
#[tactic(auto, using(crate::proofs::Writers::length_allocate, crate::proofs::Writers::length_free, crate::proofs::Writers::length_store))]
pub fn put_record(space: &mut [u8], c: Choice)
    requires { length space.old ≡ length (record_of (call_of c)) }
    ensures { space.new ≡ record_of (call_of c) }
{
    match c {
        Choice::Allocate(size) => {
            write::<2>(space, 0, 10);
            write::<2>(space, 2, 16);
            write::<4>(space, 4, size as u64);
            write::<2>(space, 8, 0);
        }
        Choice::Free(_, p) => {
            write::<2>(space, 0, 12);
            write::<2>(space, 2, 17);
            write::<8>(space, 4, p);
        }
        Choice::Store(p, byte) => {
            write::<2>(space, 0, 22);
            write::<2>(space, 2, 20);
            write::<8>(space, 4, p);
            write::<2>(space, 12, 1);
            write::<8>(space, 14, byte as u64);
        }
    }
}
