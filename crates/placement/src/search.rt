// The search for the first best order.
ghost use Rattle.std.specs.Prelude.{◌≡◌, true, ◌≤◌, length, MatchOption};
ghost use Rattle.placement.specs.Orders.{factorial};
ghost use Rattle.placement.specs.Placement.{good_plan, placement, answered};
ghost use Rattle.placement.specs.laws.Rows.{BestFound};

use super::answer::{Placement, Refusal};
use super::counting::large_of;
use super::orders::{factorial, order_at};
use super::plan::{floor_of, good_plan};

// The large-framed objects of the first best of the orders that are tried, and its number. Of equal counts the lower number is the lesser pair.
fn search(sizes: &[u32], s: u32, tried: u64) -> Option<(u64, u64)>
    requires plan { good_plan s sizes.now ≡ true }
    requires most { tried ≤ factorial (length sizes.now) }
    ensures { MatchOption result (tried ≡ 0) (λ best. BestFound s sizes.now tried best) }
{
    (0..tried).map(|i| (large_of(sizes, s, i), i)).min()
}

// The first best of the orders that the budget allows.
pub fn order(sizes: &[u32], s: u32, budget: u64) -> Result<Placement, Refusal>
    ensures { answered result ≡ placement s sizes.now budget }
{
    if !good_plan(s, sizes) {
        return Err(Refusal::BadPlan);
    }
    let n = sizes.len();
    let tried = budget.min(factorial(n));
    let (large, index) = search(sizes, s, tried).ok_or(Refusal::NoBudget)?;
    Ok(Placement {
        order: order_at(n, index),
        large,
        tried,
        floor: floor_of(sizes, s),
    })
}
