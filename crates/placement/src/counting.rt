// The large-framed objects of an order: placed end to end from address 16, without tails.
ghost use Rattle.std.specs.Prelude.{◌≡◌, true, ◌<◌, length};
ghost use Rattle.placement.specs.Orders.{factorial, order_at};
ghost use Rattle.placement.specs.Placement.{good_plan, large};

use super::orders::Picks;
use frame::same_frame;

// The large-framed objects of the order that is tried as number i.
pub fn large_of(sizes: &[u32], s: u32, i: u64) -> u64
    requires plan { good_plan s sizes.now ≡ true }
    requires below { i < factorial (length sizes.now) }
    ensures { result ≡ large s sizes.now (order_at (length sizes.now) i) }
{
    let mut count = 0;
    let mut h = 16;
    for place in Picks::new(sizes.len(), i) {
        let end = h + 16 + u64::from(sizes[usize::from(place)]);
        if !same_frame(s, h, end) {
            count += 1;
        }
        h = end;
    }
    count
}
