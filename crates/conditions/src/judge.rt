// The conditions of refusals 13 and 14 on a presentation of no more generators than rows have room for.
//
//   primes_of         the primes, from the list of every p
//   order_fits        whether the order is at most the ceiling
//   entry_well, row_well, p_well, pair_well, generator_well, well     whether every word is allowed
ghost use Rattle.std.specs.Prelude.{◌≡◌, ◌||◌, ℕ, suc, ◌<◌, ◌≤◌, get_or, leb, eqb};
ghost use Rattle.definitions.specs.Lists.{all_below};
ghost use Rattle.definitions.specs.Presentation.{max_generators, max_order};
ghost use Rattle.conditions.specs.Conditions.{product, entry_well, row_wells, pair_well, all_well, Primes};

use rows::{GENERATORS, ORDER, PAIRS, Row, Rows, pair, wide};

// The primes, from the list of every p.
pub fn primes_of(ps: &[u32; PAIRS], n: usize) -> Row
    requires { n ≤ max_generators }
    ensures { Primes ps.now n result }
{
    let mut primes = [0u32; GENERATORS];
    for j in 0..n {
        primes[j] = ps[pair(j, j)];
    }
    primes
}

// Whether the product of the first n primes is at most the ceiling.
pub fn order_fits(primes: &Row, n: usize) -> bool
    requires n_le_max_generators { n ≤ max_generators }
    requires by_index { (j : ℕ) → j < n → 0 < get_or primes.now j 0 }
    ensures { result ≡ leb (product primes.now n) max_order }
{
    let mut order: u64 = 1;
    for p in &primes[..n] {
        order *= wide(*p);
        if (ORDER as u64) < order {
            return false;
        }
    }
    true
}

// Whether the word of (j, i) may have the exponent e of generator k.
#[tactic(auto, unfolding(definitions::specs::Presentation::allowed))]
fn entry_well(e: u32, p: u32, j: usize, i: usize, k: usize) -> bool
    ensures { result ≡ entry_well e p j i k }
{
    if p <= e {
        return false;
    }
    if e == 0 {
        return true;
    }
    if i == j {
        return k < j;
    }
    k <= i
}

// Whether the word of (j, i) is allowed.
fn row_well(row: &Row, primes: &Row, n: usize, j: usize, i: usize) -> bool
    requires { n ≤ max_generators }
    ensures { result ≡ row_wells row.now primes.now n j i }
{
    (0..n).all(|k| entry_well(row[k], primes[k], j, i, k))
}

// Whether a p is 0 unless i = j.
fn p_well(p: u32, j: usize, i: usize) -> bool
    ensures { result ≡ (eqb i j || eqb p 0) }
{
    i == j || p == 0
}

// Whether the line of (j, i) is as it should be.
#[tactic(auto, unfolding(crate::specs::Conditions::pair_well))]
fn pair_well(rows: &Rows, ps: &[u32; PAIRS], primes: &Row, n: usize, j: usize, i: usize) -> bool
    requires { (n ≤ max_generators) × (j < n) × (i ≤ j) }
    ensures { result ≡ pair_well rows.now ps.now primes.now n j i }
{
    let k = pair(j, i);
    p_well(ps[k], j, i) && row_well(&rows[k], primes, n, j, i)
}

// Whether the lines of generator j are as they should be.
fn generator_well(rows: &Rows, ps: &[u32; PAIRS], primes: &Row, n: usize, j: usize) -> bool
    requires { (n ≤ max_generators) × (j < n) }
    ensures { result ≡ all_below (suc j) (λ i. pair_well rows.now ps.now primes.now n j i) }
{
    (0..j + 1).all(|i| pair_well(rows, ps, primes, n, j, i))
}

// Whether all lines are as they should be.
pub fn well(rows: &Rows, ps: &[u32; PAIRS], primes: &Row, n: usize) -> bool
    requires { n ≤ max_generators }
    ensures { result ≡ all_well rows.now ps.now primes.now n }
{
    (0..n).all(|j| generator_well(rows, ps, primes, n, j))
}
