// Which generators commute, as the rows of a presentation tell: what product and conjugation may pass over.
//
//   Reaches                      a number of generators, for each generator
//   stays                        whether conjugation keeps an exponent
//   reached, reaches             from where on a generator commutes with those below it
//   risen, rises                 how far a generator commutes with every other
//   moved                        the highest exponent of a row that a conjugation may change
#![tactic(auto)]

ghost use Rattle.std.specs.Prelude.{◌≡◌, ◌≤◌, ◌<◌, get_or};
ghost use Rattle.definitions.specs.Presentation.{max_generators};
ghost use Rattle.commuting.specs.Commuting.{keeps, KeepsFrom, Reach, Quiet, Rise, Central};

use rows::{GENERATORS, Row, Rows, empty, word};

// For each generator, a number of generators.
pub type Reaches = [usize; GENERATORS];

// Conjugation by generator j keeps an exponent e of generator l where e is 0 or the word of the two generators is empty.
fn stays(rows: &Rows, j: usize, l: usize, e: u32) -> bool
    requires { (l < j) × (j < max_generators) }
    ensures { result ≡ keeps rows.now j l e }
{
    e == 0 || empty(l + 1, word(rows, j, l))
}

// Generator j commutes with the generators from the answer up to j: their words with it are empty.
fn reached(rows: &Rows, j: usize) -> usize
    requires { j < max_generators }
    ensures { Reach rows.now j result }
{
    for l in (0..j).rev() {
        if !empty(l + 1, word(rows, j, l)) {
            return l + 1;
        }
    }
    0
}

// For each of the first n generators, down to which it commutes with all below it.
pub fn reaches(rows: &Rows, n: usize) -> Reaches
    requires { n ≤ max_generators }
    ensures { Quiet n rows.now result }
{
    let mut r = [0usize; GENERATORS];
    for j in 0..n {
        r[j] = reached(rows, j);
    }
    r
}

// Generator c commutes with every generator below the answer.
fn risen(rows: &Rows, reach: &Reaches, n: usize, c: usize) -> usize
    requires { (c < n) × (n ≤ max_generators) × Reach rows.now c (get_or reach.now c 0) }
    ensures { Rise rows.now c result }
{
    if reach[c] != 0 {
        return 0;
    }
    for j in c + 1..n {
        if !empty(c + 1, word(rows, j, c)) {
            return j;
        }
    }
    n
}

// For each of the first n generators, up to which it commutes with every generator.
pub fn rises(rows: &Rows, reach: &Reaches, n: usize) -> Reaches
    requires { (n ≤ max_generators) × Quiet n rows.now reach.now }
    ensures { Central n rows.now result }
{
    let mut r = [0usize; GENERATORS];
    for c in 0..n {
        r[c] = risen(rows, reach, n, c);
    }
    r
}

// One more than the highest of the first k exponents of x that conjugation by generator j may change; 0 where it keeps all.
pub fn moved(rows: &Rows, reach: &Reaches, k: usize, j: usize, x: &Row) -> usize
    requires { (k ≤ j) × (j < max_generators) × Reach rows.now j (get_or reach.now j 0) }
    ensures { KeepsFrom rows.now k j x.now result }
{
    for l in (0..k.min(reach[j])).rev() {
        if !stays(rows, j, l, x[l]) {
            return l + 1;
        }
    }
    0
}
