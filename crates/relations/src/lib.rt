// The relations and the intertwiners of one representation that stands in lines. Nothing is multiplied out: both sides of a
// relation move each basis vector, column by column.
//
//   conjugated                                       a column moved through a conjugate of a generator
//   power_at, commutator_at, intertwines_at          a relation at a column
//   power_holds, commutator_holds, carries_over      the same at every column
//   power_relation, commutator_relation              a relation whose word is looked up
//   top_relations, all_relations                     those of one generator with the ones below it, and of all
//   carried, all_carried                             a generator carried over by an intertwiner, and all of a level
//   led_to, intertwiner, all_intertwiners            where an intertwiner leads, what is asked of it, and of all
#![tactic(auto)]

ghost use Rattle.std.specs.Prelude.{◌≡◌, ◌≤◌, ◌<◌};
ghost use Rattle.level.specs.Stored.{target_in};
ghost use Rattle.seek.specs.Seek.{Found};
ghost use Rattle.seek.specs.Among.{Among};
ghost use Rattle.relations.specs.Kept.{MatricesStored};
ghost use Rattle.relations.specs.Said.{Decides, PowerOf, WordOf, WordIn, ReadsIn, Spells};
ghost use Rattle.relations.specs.Tests.{power_at_in, commutator_at_in, carries_at_in, power_in, commutator_in, carries_in};
ghost use Rattle.relations.specs.Tests.{Conjugated, top_in, relations_in, all_carried_in, intertwines_in, intertwiners_in};

use definitions::Entry;
use level::Listed;
use rows::{Row, Rows};
use seek::Scope;

// ---- One column

// Generator j to the power p, its prime, moves column c as its power word u does.
pub fn power_at(words: &[u32], s: Scope, d: Listed, j: u32, p: u32, u: &Row, c: u32) -> bool
    requires { MatricesStored s words.now d × (j < s.gens) × (c < d.deg) }
    ensures { Decides (PowerOf j p u.now) (power_at_in s words.now d j c) result }
{
    let x = Entry { row: c, exp: 0 };
    let y = level::moved_times(words, d, j, p, x, s.m);
    let z = level::walked(words, d, u, level::up(j), x, s.m);
    y == z
}

// Where the conjugate of generator k by a generator above it moves column c; w is the word of the two.
fn conjugated(words: &[u32], s: Scope, d: Listed, k: u32, w: &Row, c: u32) -> Entry
    requires { MatricesStored s words.now d × (k < s.gens) × (c < d.deg) }
    ensures { Conjugated s.m words.now d k w.now c result }
{
    let x = Entry { row: c, exp: 0 };
    let y = level::walked(words, d, w, level::up(k) + 1, x, s.m);
    level::moved(words, d, k, y, s.m)
}

// Generators k < j, whose word is w, commute on column c up to that word; where the degree is 1, the word has the exponent 0.
fn commutator_at(words: &[u32], s: Scope, d: Listed, k: u32, j: u32, w: &Row, c: u32) -> bool
    requires { MatricesStored s words.now d × (k < s.gens) × (j < s.gens) × (c < d.deg) }
    ensures { Decides (WordOf k j w.now) (commutator_at_in s words.now d k j c) result }
{
    if d.deg == 1 {
        let t = level::walked(words, d, w, level::up(k) + 1, Entry { row: c, exp: 0 }, s.m);
        return t.exp == 0;
    }
    let y = level::moved(words, d, j, Entry { row: c, exp: 0 }, s.m);
    let z = conjugated(words, s, d, k, w, c);
    level::moved(words, d, k, y, s.m) == level::moved(words, d, j, z, s.m)
}

// The intertwiner of generator j, which leads from d to e of the same degree, and generator k < j, at column c; where the degree
// is 1, the conjugate of k has the exponent of k in e.
pub fn intertwines_at(
    words: &[u32],
    s: Scope,
    d: Listed,
    e: Listed,
    k: u32,
    j: u32,
    w: &Row,
    c: u32,
) -> bool
    requires { MatricesStored s words.now d × MatricesStored s words.now e × (e.deg ≡ d.deg) × (k < s.gens) × (j < s.gens) × (c < d.deg) }
    ensures { Decides (WordOf k j w.now) (carries_at_in s words.now d e k j c) result }
{
    if d.deg == 1 {
        let t = conjugated(words, s, d, k, w, c);
        let u = level::moved(words, e, k, Entry { row: c, exp: 0 }, s.m);
        return t.exp == u.exp;
    }
    let y = level::moved(words, d, j, Entry { row: c, exp: 0 }, s.m);
    let z = conjugated(words, s, d, k, w, c);
    level::moved(words, d, j, z, s.m) == level::moved(words, e, k, y, s.m)
}

// ---- One relation

// The power relation of generator j, of prime p and power word u.
fn power_holds(words: &[u32], s: Scope, d: Listed, j: u32, p: u32, u: &Row) -> bool
    requires { MatricesStored s words.now d × (j < s.gens) }
    ensures { Decides (PowerOf j p u.now) (power_in s words.now d j) result }
{
    let deg = d.deg;
    for c in 0..deg {
        if !power_at(words, s, d, j, p, u, c) {
            return false;
        }
    }
    true
}

// The commutator relation of generators k < j, of word w.
fn commutator_holds(words: &[u32], s: Scope, d: Listed, k: u32, j: u32, w: &Row) -> bool
    requires { MatricesStored s words.now d × (k < s.gens) × (j < s.gens) }
    ensures { Decides (WordOf k j w.now) (commutator_in s words.now d k j) result }
{
    let deg = d.deg;
    for c in 0..deg {
        if !commutator_at(words, s, d, k, j, w, c) {
            return false;
        }
    }
    true
}

// The intertwiner of generator j carries generator k from d to e, of the same degree.
fn carries_over(words: &[u32], s: Scope, d: Listed, e: Listed, k: u32, j: u32, w: &Row) -> bool
    requires { MatricesStored s words.now d × MatricesStored s words.now e × (e.deg ≡ d.deg) × (k < s.gens) × (j < s.gens) }
    ensures { Decides (WordOf k j w.now) (carries_in s words.now d e k j) result }
{
    let deg = d.deg;
    for c in 0..deg {
        if !intertwines_at(words, s, d, e, k, j, w, c) {
            return false;
        }
    }
    true
}

// ---- One representation

// The power relation of generator j.
fn power_relation(words: &[u32], rows: &Rows, primes: &Row, s: Scope, d: Listed, j: u32) -> bool
    requires { MatricesStored s words.now d × (j < s.gens) }
    ensures { Decides (ReadsIn s primes.now rows.now) (power_in s words.now d j) result }
{
    let t = level::up(j);
    let u = rows::word(rows, t, t);
    power_holds(words, s, d, j, primes[t], &u)
}

// The commutator relation of generators k < j.
fn commutator_relation(words: &[u32], rows: &Rows, s: Scope, d: Listed, k: u32, j: u32) -> bool
    requires { MatricesStored s words.now d × (k < j) × (j < s.gens) }
    ensures { Decides (WordIn k j rows.now) (commutator_in s words.now d k j) result }
{
    let at = rows::pair(level::up(j), level::up(k));
    commutator_holds(words, s, d, k, j, &rows[at])
}

// The relations of generator j with those below it.
pub fn top_relations(words: &[u32], rows: &Rows, primes: &Row, s: Scope, d: Listed, j: u32) -> bool
    requires { MatricesStored s words.now d × (j < s.gens) }
    ensures { Decides (ReadsIn s primes.now rows.now) (top_in s words.now d j) result }
{
    if !power_relation(words, rows, primes, s, d, j) {
        return false;
    }
    for k in 0..j {
        if !commutator_relation(words, rows, s, d, k, j) {
            return false;
        }
    }
    true
}

// The relations of the first i generators.
pub fn all_relations(words: &[u32], rows: &Rows, primes: &Row, s: Scope, d: Listed, i: u32) -> bool
    requires { MatricesStored s words.now d × (i ≤ s.gens) }
    ensures { Decides (ReadsIn s primes.now rows.now) (relations_in s words.now d i) result }
{
    for j in 0..i {
        if !top_relations(words, rows, primes, s, d, j) {
            return false;
        }
    }
    true
}

// The intertwiner of generator j carries generator k from d to e, of the same degree.
fn carried(words: &[u32], rows: &Rows, s: Scope, d: Listed, e: Listed, k: u32, j: u32) -> bool
    requires { MatricesStored s words.now d × MatricesStored s words.now e × (e.deg ≡ d.deg) × (k < j) × (j < s.gens) }
    ensures { Decides (WordIn k j rows.now) (carries_in s words.now d e k j) result }
{
    let at = rows::pair(level::up(j), level::up(k));
    carries_over(words, s, d, e, k, j, &rows[at])
}

// The intertwiner of generator j carries every generator of level i from d to e, of the same degree.
fn all_carried(words: &[u32], rows: &Rows, s: Scope, i: u32, d: Listed, e: Listed, j: u32) -> bool
    requires { MatricesStored s words.now d × MatricesStored s words.now e × (e.deg ≡ d.deg) × (i ≤ j) × (j < s.gens) }
    ensures { Decides (Spells s rows.now) (all_carried_in s words.now d e i j) result }
{
    for k in 0..i {
        if !carried(words, rows, s, d, e, k, j) {
            return false;
        }
    }
    true
}

// Where the intertwiner of generator j leads from d, of level i.
fn led_to(words: &[u32], s: Scope, i: u32, d: Listed, j: u32) -> Listed
    requires { Among s words.now i d × (i ≤ j) × (j < s.gens) }
    ensures { Found s.gens words.now i (target_in words.now d j) result }
{
    seek::found_near(words, s, i, level::up(level::target(words, d, j)), d.line)
}

// The intertwiner of generator j intertwines d, of level i, with the representation to which it leads.
fn intertwiner(words: &[u32], rows: &Rows, s: Scope, i: u32, d: Listed, j: u32) -> bool
    requires { Among s words.now i d × (i ≤ j) × (j < s.gens) }
    ensures { Decides (Spells s rows.now) (intertwines_in s words.now d i j) result }
{
    let e = led_to(words, s, i, d, j);
    let from = d.deg;
    let to = e.deg;
    if to != from {
        return false;
    }
    all_carried(words, rows, s, i, d, e, j)
}

// All intertwiners of d, of level i.
pub fn all_intertwiners(words: &[u32], rows: &Rows, s: Scope, i: u32, d: Listed) -> bool
    requires { Among s words.now i d }
    ensures { Decides (Spells s rows.now) (intertwiners_in s words.now d i) result }
{
    let gens = s.gens;
    for j in i..gens {
        if !intertwiner(words, rows, s, i, d, j) {
            return false;
        }
    }
    true
}
