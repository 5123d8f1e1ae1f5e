// How large a presentation is.
//
//   Size          the order of its group, and the words that a build wants
//   measure       the size of primes whose products are at most the ceiling
//   Orders        the order of each level, from level 0 on
//   level_orders  those of such primes
ghost use Rattle.std.specs.Prelude.{ℕ, ◌≤◌};
ghost use Rattle.definitions.specs.Presentation.{max_generators, max_order};
ghost use Rattle.conditions.specs.Conditions.{product};
ghost use Rattle.conditions.specs.Size.{Measured, LevelOrders};

use rows::{GENERATORS, Row};

#[derive(Clone, Copy)]
pub struct Size {
    pub order: u32,
    pub words: usize,
}

// The order is the product of the first n primes; the words are eight for each generator and each element of each level.
pub fn measure(primes: &Row, n: usize) -> Size
    requires n_le_max_generators { n ≤ max_generators }
    requires by_index { (j : ℕ) → j ≤ n → product primes.now j ≤ max_order }
    ensures { Measured primes.now n result }
{
    let mut order: u32 = 1;
    let mut elements: u32 = 0;
    for p in &primes[..n] {
        order *= *p;
        elements += order;
    }
    Size {
        order,
        words: 8 * (n * elements as usize),
    }
}

pub type Orders = [u32; GENERATORS + 1];

// The order of a level is the product of the primes below it. Of the levels above n nothing is said.
pub fn level_orders(primes: &Row, n: usize) -> Orders
    requires n_le_max_generators { n ≤ max_generators }
    requires by_index { (j : ℕ) → j ≤ n → product primes.now j ≤ max_order }
    ensures { LevelOrders primes.now n result }
{
    let mut r = [1u32; GENERATORS + 1];
    for j in 0..n {
        r[j + 1] = r[j] * primes[j];
    }
    r
}
