// The equations of the intertwiners of a representation at the top generator of its level, tested in the first column of each block. The
// tests are part of the fast acceptance test, and by design sound but not complete: `true` implies the condition, `false` implies
// nothing. `checker::judge` is exact.
//
//   commutes_at, commutes        the intertwiner of a generator that commutes with the one on top
//   carries, carries_all         the intertwiner of any generator above the top, and those of all
#![tactic(auto)]

ghost use Rattle.std.specs.Prelude.{◌≡◌, true, [], ◌≤◌, ◌<◌};
ghost use Rattle.definitions.specs.Presentation.{Presentation};
ghost use Rattle.commuting.specs.Commuting.{Quiet};
ghost use Rattle.relations.specs.Kept.{MatricesStored};
ghost use Rattle.relations.specs.Said.{Decides, WordOf};
ghost use Rattle.relations.specs.Tests.{carries_at_in};
ghost use Rattle.compare.specs.Staged.{max_lines};
ghost use Rattle.check_columns.specs.Relates.{CarryAsked, Carries, CarriesAll, Reached};

use commuting::Reaches;
use compare::Stage;
use definitions::Entry;
use level::Listed;
use rows::{Row, Rows};
use seek::Scope;

// Generators i < j commute: the intertwiner of generator j carries generator i from d to e, of the same degree, at column c; where
// the degree is 1, generator i has the same exponent in both.
fn commutes_at(words: &[u32], s: Scope, d: Listed, e: Listed, i: u32, j: u32, c: u32) -> bool
    requires { MatricesStored s words.now d × MatricesStored s words.now e × (e.deg ≡ d.deg) × (i < s.gens) × (j < s.gens) × (c < d.deg) }
    ensures { Decides (WordOf i j []) (carries_at_in s words.now d e i j c) result }
{
    let x = Entry { row: c, exp: 0 };
    let z = level::moved(words, d, i, x, s.m);
    if d.deg == 1 {
        let t = level::moved(words, e, i, x, s.m);
        return z.exp == t.exp;
    }
    let y = level::moved(words, d, j, x, s.m);
    let a = level::moved(words, d, j, z, s.m);
    let b = level::moved(words, e, i, y, s.m);
    a == b
}

// So in every v-th column.
fn commutes(words: &[u32], s: Scope, d: Listed, e: Listed, i: u32, j: u32, v: u32) -> bool
    requires { CarryAsked s words.now d e i j v }
    ensures { result ≡ true → (P : Presentation) → WordOf i j [] P → Carries s words.now d e i j v P }
{
    let deg = d.deg;
    for o in (0..deg).step_by(level::up(v)) {
        if !commutes_at(words, s, d, e, i, j, o) {
            return false;
        }
    }
    true
}

// The intertwiner of generator j, whose word with generator i is w, carries generator i from d to e, of the same degree, in every
// v-th column.
fn carries(words: &[u32], s: Scope, d: Listed, e: Listed, i: u32, j: u32, w: &Row, v: u32) -> bool
    requires { CarryAsked s words.now d e i j v }
    ensures { result ≡ true → (P : Presentation) → WordOf i j w.now P → Carries s words.now d e i j v P }
{
    let deg = d.deg;
    for o in (0..deg).step_by(level::up(v)) {
        if !relations::intertwines_at(words, s, d, e, i, j, w, o) {
            return false;
        }
    }
    true
}

// The intertwiners of all generators above the top satisfy their equation; `reach` says which of them commute with the top
// generator. Sound, not complete.
pub fn carries_all(
    words: &[u32],
    firsts: &[u32],
    rows: &Rows,
    reach: &Reaches,
    s: Scope,
    g: Stage,
    d: Listed,
    v: u32,
) -> bool
    requires { Reached s words.now firsts.now g d × (0 < v) × (v ≤ max_lines) × Quiet s.gens rows.now reach.now }
    ensures { result ≡ true → CarriesAll s words.now firsts.now g d rows.now v }
{
    let gens = s.gens;
    let top = g.top;
    for j in top + 1..gens {
        let e = compare::rep_at(
            words,
            firsts,
            g.high + level::up(level::target(words, d, j)),
        );
        let above = level::up(j);
        let below = level::up(top);
        if reach[above] <= below {
            if !commutes(words, s, d, e, top, j, v) {
                return false;
            }
        } else {
            let at = rows::pair(above, below);
            if !carries(words, s, d, e, top, j, &rows[at], v) {
                return false;
            }
        }
    }
    true
}
