// Set-up: a fresh store on any image and table.
ghost use Rattle.std.specs.Prelude.{◌≡◌, ◌<◌, ◌≤◌, ◌^◌, length};
ghost use Rattle.store.specs.State.{state, outcome};
ghost use Rattle.store.specs.Calls.{set_up_checks, fresh, set_up};

use crate::answer::Refusal;
use crate::entries::clear_entries;
use block::bytes::fill;
use block::header::write_free;
use block::superblock::write_superblock;
use frame::used_entries;

// Rows 1, 2 and 3.
fn settable(image: &[u8], table: &[u64], s: u32) -> Result<u64, Refusal>
    ensures { result ≡ set_up_checks s (state image.now table.now) }
{
    if s < 6 {
        return Err(Refusal::BadExponent);
    }
    if s > 15 {
        return Err(Refusal::BadExponent);
    }
    let len = image.len() as u64;
    if len < 64 {
        return Err(Refusal::BadLength);
    }
    if len > 1073741824 {
        return Err(Refusal::BadLength);
    }
    if (table.len() as u64) < used_entries(s, len) {
        return Err(Refusal::TooFewEntries);
    }
    Ok(0)
}

// Lays out a fresh image: the superblock, with all bytes behind it free, and one free block of zeros.
fn lay_out(image: &mut [u8], s: u32)
    requires { (64 ≤ length image.old) × (length image.old < 2 ^ 32) }
    ensures { image.new ≡ fresh s (length image.old) }
{
    let len = image.len();
    let free = len as u64 - 16;
    fill(image, 0, len, 0);
    write_superblock(image, s, free);
    write_free(image, 16, free);
}

// A fresh store with slot exponent s.
pub fn set_up(image: &mut [u8], table: &mut [u64], s: u32) -> Result<u64, Refusal>
    ensures { outcome result image.new table.new ≡ set_up s (state image.old table.old) }
{
    settable(image, table, s)?;
    let used = used_entries(s, image.len() as u64);
    lay_out(image, s);
    clear_entries(table, used as usize);
    Ok(0)
}
