// Orders of positions: the one that is tried as number i is made afresh from the digits of i in the factorial number system.
ghost use Rattle.std.specs.Prelude.{◌≡◌, ◌<◌, ◌≤◌};
ghost use Rattle.placement.specs.Orders.{factorial, order_at};
ghost use Rattle.std.specs.Iterator.{YieldsFirst, item_count};
ghost use Rattle.placement.specs.Placement.{eight_places};
ghost use Rattle.placement.specs.laws.Digits.{picked_in};

use super::packed::{POSITIONS, take};

// How many orders n objects have.
#[tactic(auto, unfolding(crate::specs::Orders::factorial))]
pub fn factorial(n: usize) -> u64
    requires { n ≤ 8 }
    ensures { result ≡ factorial n }
{
    match n {
        0 | 1 => 1,
        2 => 2,
        3 => 6,
        4 => 24,
        5 => 120,
        6 => 720,
        7 => 5040,
        _ => 40320,
    }
}

// The positions of an order, picked by the digits of its number: `rest` holds those that are left.
#[derive(Drop)]
pub struct Picks {
    rest: u64,
    left: u64,
    count: usize,
    ghost few: { count ≤ 8 },
    ghost below: { left < factorial count },
}

impl Picks {
    // The order of n positions that is tried as number i.
    pub fn new(n: usize, i: u64) -> Picks
        requires few { n ≤ 8 }
        requires below { i < factorial n }
        ensures { picked_in result.count result.rest result.left ≡ order_at n i }
    {
        Picks {
            rest: POSITIONS,
            left: i,
            count: n,
        }
    }
}

impl Iterator for Picks {
    type Item = u8;

    ghost next_gives = { YieldsFirst (λ p. picked_in p.count p.rest p.left) };

    ghost remaining = { item_count (λ p. picked_in p.count p.rest p.left) };

    fn next(&mut self) -> Option<u8> {
        if self.count == 0 {
            return None;
        }
        let count = self.count - 1;
        let f = factorial(count);
        let mut rest = self.rest;
        let place = take(&mut rest, self.left / f);
        *self = Picks {
            rest,
            left: self.left % f,
            count,
        };
        Some(place)
    }
}

// The order of n positions that is tried as number i.
pub fn order_at(n: usize, i: u64) -> [u8; 8]
    requires { (n ≤ 8) × (i < factorial n) }
    ensures { result ≡ eight_places (order_at n i) }
{
    let mut order = [0; 8];
    for (j, place) in Picks::new(n, i).enumerate() {
        order[j] = place;
    }
    order
}
