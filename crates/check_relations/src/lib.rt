// Refusals 22 and 24: whether the relations hold on every level, and whether the intertwiners intertwine.
//
//   holds_on, holds_everywhere     a test of the representations of a level, and of all
//   top_relations_hold, relations_hold, intertwiners_hold     the conditions on a table
#![tactic(auto)]

ghost use Rattle.std.specs.Prelude.{List, ℕ, ◌≤◌, ◌<◌};
ghost use Rattle.definitions.specs.Presentation.{Presentation};
ghost use Rattle.definitions.specs.Judgement.{relations_hold, intertwiners_hold};
ghost use Rattle.separation.specs.Relations.{top_relations};
ghost use Rattle.seek.specs.Formed.{Formed, Posed};
ghost use Rattle.level.specs.declared.Listed.{Listed};
ghost use Rattle.seek.specs.Among.{Among};
ghost use Rattle.check_relations.specs.Asked.{OfRep, OnLevels, OnTable, Everywhere};

use level::Listed;
use rows::{Row, Rows};
use seek::{Reps, Scope};

// The test passes every representation of level i.
fn holds_on<F: Fn(u32, Listed) -> bool>(words: &[u32], s: Scope, i: u32, test: &F) -> bool
    requires there { ((P : Presentation) × Formed P s words.now) × (0 < i) × (i ≤ s.gens) }
    requires asks { (k : ℕ) (D : Listed) → Among s words.now k D → F.pre test.now k D }
    ensures { OnLevels (F.post test.now) s words.now i result }
{
    for d in Reps::of(words, s, i) {
        if !test(i, d) {
            return false;
        }
    }
    true
}

// It passes every representation of every level, where it does on the first `from` levels.
fn holds_everywhere<F: Fn(u32, Listed) -> bool>(
    words: &[u32],
    s: Scope,
    from: u32,
    test: &F,
) -> bool
    requires there { (P : Presentation) × Formed P s words.now }
    requires asks { (k : ℕ) (D : Listed) → Among s words.now k D → F.pre test.now k D }
    ensures { OnTable (F.post test.now) s words.now from result }
{
    let gens = s.gens;
    for i in from..gens {
        if !holds_on(words, s, i + 1, test) {
            return false;
        }
    }
    true
}

// Whether the relations of the generator on top of each level hold, where they do on the first `from` levels: refusal 22 where 23
// does not apply.
pub fn top_relations_hold(words: &[u32], rows: &Rows, primes: &Row, s: Scope, from: u32) -> bool
    requires { (P : Presentation) × Posed P s rows.now primes.now words.now }
    ensures { Everywhere top_relations s rows.now primes.now words.now from result }
{
    holds_everywhere(
        words,
        s,
        from,
        &|i: u32, d: Listed| -> bool
            requires { Among s words.now i d }
            ensures { OfRep top_relations s rows.entry.now primes.entry.now words.entry.now i d result }
        { relations::top_relations(words, rows, primes, s, d, i - 1) },
    )
}

// Whether all relations hold on every level, where they do on the first `from` levels: refusal 22.
pub fn relations_hold(words: &[u32], rows: &Rows, primes: &Row, s: Scope, from: u32) -> bool
    requires { (P : Presentation) × Posed P s rows.now primes.now words.now }
    ensures { Everywhere relations_hold s rows.now primes.now words.now from result }
{
    holds_everywhere(
        words,
        s,
        from,
        &|i: u32, d: Listed| -> bool
            requires { Among s words.now i d }
            ensures { OfRep relations_hold s rows.entry.now primes.entry.now words.entry.now i d result }
        { relations::all_relations(words, rows, primes, s, d, i) },
    )
}

// Whether every intertwiner intertwines, where those of the first `from` levels do: refusal 24.
pub fn intertwiners_hold(words: &[u32], rows: &Rows, primes: &Row, s: Scope, from: u32) -> bool
    requires { (P : Presentation) × Posed P s rows.now primes.now words.now }
    ensures { Everywhere intertwiners_hold s rows.now primes.now words.now from result }
{
    holds_everywhere(
        words,
        s,
        from,
        &|i: u32, d: Listed| -> bool
            requires { Among s words.now i d }
            ensures { (primes : List ℕ) → OfRep intertwiners_hold s rows.entry.now primes words.entry.now i d result }
        { relations::all_intertwiners(words, rows, s, i, d) },
    )
}
