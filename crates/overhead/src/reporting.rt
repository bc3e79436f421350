// The report over a list of sizes.
ghost use Rattle.std.specs.Prelude.{◌≡◌, true, ◌≤◌, length};
ghost use Rattle.overhead.specs.Overhead.{good_sizes, padded, total, end_from, fraction, report, answered};

use super::answer::{Fraction, Refusal, Report};
use super::padding::{block_end, padded};

// Whether every size is in range.
fn good_sizes(sizes: &[u32]) -> bool
    ensures { result ≡ good_sizes sizes.now }
{
    sizes.iter().all(|size| (1..=65536).contains(size))
}

// Bytes of the padded blocks of these sizes, without gaps, and the end that they reach, in list order, from 0 on.
fn placed(sizes: &[u32]) -> (u64, u64)
    requires few { length sizes.now ≤ 65536 }
    requires good { good_sizes sizes.now ≡ true }
    ensures bytes { result.0 ≡ total padded sizes.now }
    ensures end { result.1 ≡ end_from 0 sizes.now }
{
    let mut bytes = 0;
    let mut end = 0;
    for size in sizes {
        let p = padded(*size);
        bytes += p;
        end = block_end(p, end);
    }
    (bytes, end)
}

// The extra bytes over raw bytes; 0 over 1 where there are none.
fn fraction(bytes: u64, raw: u64) -> Fraction
    requires { raw ≤ bytes }
    ensures { result ≡ fraction bytes raw }
{
    if raw == 0 {
        Fraction { extra: 0, over: 1 }
    } else {
        Fraction {
            extra: bytes - raw,
            over: raw,
        }
    }
}

// The report: every sum is exact, and padded bytes are counted without gaps.
pub fn report(sizes: &[u32]) -> Result<Report, Refusal>
    ensures { answered result ≡ report sizes.now }
{
    if sizes.len() > 65536 {
        return Err(Refusal::TooMany);
    }
    if !good_sizes(sizes) {
        return Err(Refusal::BadSize);
    }
    let raw = sizes.iter().map(|size| u64::from(*size)).sum();
    let headed = raw + 16 * sizes.len() as u64;
    let (blocks, end) = placed(sizes);
    Ok(Report {
        raw,
        headed,
        padded: blocks,
        end,
        headers: fraction(headed, raw),
        padding: fraction(blocks, raw),
    })
}
