// Checks any words as a table, and returns the first of the refusals 21 to 26 that applies. The fast acceptance test runs first and
// counts the leading levels that pass. If all levels pass, so does the table. Otherwise the exact tests run on the remaining levels,
// ordered so that each may rely on the results of those before it: 23 comes before 22, since it decides which relations suffice.
//
//   judge_formed     22 to 26, of a table to which 21 does not apply
//   judge            21 to 26, of any words
#![tactic(auto)]

ghost use Rattle.results.specs.Numbers.{answer};
ghost use Rattle.checker.specs.Judged.{SomeTask, Judged, SomeSorted, JudgedFormed};

use conditions::size::Orders;
use results::Refusal;
use rows::{Row, Rows};
use seek::Scope;

// The first of 22 to 26 that applies to a table to which 21 does not and whose first `from` levels pass.
fn judge_formed(
    words: &[u32],
    rows: &Rows,
    primes: &Row,
    orders: &Orders,
    s: Scope,
    from: u32,
) -> Result<(), Refusal>
    requires { SomeSorted s rows.now primes.now orders.now words.now from }
    ensures { JudgedFormed s rows.now primes.now orders.now words.now from (answer result) }
{
    if !check_blocks::restrictions_hold(words, s, from) {
        if check_relations::relations_hold(words, rows, primes, s, from) {
            return Err(Refusal::Restriction);
        }
        return Err(Refusal::Relation);
    }
    if !check_relations::top_relations_hold(words, rows, primes, s, from) {
        return Err(Refusal::Relation);
    }
    if !check_relations::intertwiners_hold(words, rows, primes, s, from) {
        return Err(Refusal::Intertwiner);
    }
    if !check_pairs::separated(words, primes, s, from) {
        return Err(Refusal::Separation);
    }
    if !check_blocks::squares_hold(words, orders, s, from) {
        return Err(Refusal::Squares);
    }
    Ok(())
}

// The first of the refusals 21 to 26 that applies to words as a table of a presentation of n generators with exponents modulo m.
// The answer is exact for any words, whatever the fast acceptance test counts.
pub fn judge(words: &[u32], rows: &Rows, primes: &Row, n: u32, m: u32) -> Result<(), Refusal>
    requires { SomeTask n m rows.now primes.now }
    ensures { Judged n m rows.now primes.now words.now (answer result) }
{
    let s = Scope {
        lines: words.len() / 8,
        gens: n,
        m,
    };
    let orders = conditions::size::level_orders(primes, level::up(n));
    let from = check_fit::fitting_levels(words, rows, primes, &orders, s);
    if from == n {
        return Ok(());
    }
    if !check_form::well_formed(words, &orders, s, from) {
        return Err(Refusal::Lines);
    }
    judge_formed(words, rows, primes, &orders, s, from)
}
