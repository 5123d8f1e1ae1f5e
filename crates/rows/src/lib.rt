// The rows of a presentation as the code holds them: the ceilings, the types, the word of a pair of generators, and what
// is done with rows of exponents. A normal form of level i is a row of which the first i exponents count, that of the
// lowest generator first. Generators are numbered from 0.
//
//   GENERATORS, PAIRS, ORDER, DEGREES     the ceilings on generators, on the order and on degrees, and the pairs of so many generators
//   Row, Rows                    an exponent, or a prime, for each generator; a row for each pair
//   wide                         a number as one of 64 bits
//   pair                         the number of a pair
//   word                         the word of a pair
//   generator                    the row of a generator
//   same, empty                  whether two rows say one normal form; whether a row says the trivial one
//   top                          the highest exponent that is not 0
//   stacked, copied              rows of two
#![tactic(auto)]

ghost use Rattle.std.specs.Prelude.{◌≡◌, [], ◌≤◌, ◌<◌, length, get_or};
ghost use Rattle.definitions.specs.Presentation.{max_generators, pair_count, to_nf, trivial, pair_number};
ghost use Rattle.definitions.specs.Consistency.{same_form};
ghost use Rattle.rows.specs.Rows.{Generator, Top, Stacked, Mixed};

// These equal max_generators, pair_count, max_order and max_degree of the definitions.
pub const GENERATORS: usize = 14;

pub const PAIRS: usize = 105;

pub const ORDER: usize = 16384;

pub const DEGREES: usize = 128;

// An exponent, or a prime, for each generator.
pub type Row = [u32; GENERATORS];

// A row for each pair of generators, picked by the number of the pair.
pub type Rows = [[u32; GENERATORS]; PAIRS];

// A number as one of 64 bits, and the bound by which products of such numbers fit.
pub fn wide(x: u32) -> u64
    ensures { (result ≡ x) × (result < 4294967296) }
{
    u64::from(x)
}

// The number of the pair (j, i), i ≤ j, in the order of the lines of a text.
pub fn pair(j: usize, i: usize) -> usize
    requires { (i ≤ j) × (j < max_generators) }
    ensures { (result ≡ pair_number j i) × (result < pair_count) }
{
    let first = j * (j + 1) / 2;
    if i == j { first } else { first + i + 1 }
}

// The word of the pair (j, i).
pub fn word(rows: &Rows, j: usize, i: usize) -> Row
    requires { (i ≤ j) × (j < max_generators) }
    ensures { result ≡ get_or rows.now (pair_number j i) [] }
{
    let at = pair(j, i);
    rows[at]
}

// The row of generator k.
pub fn generator(k: usize) -> Row
    requires { k < max_generators }
    ensures { Generator k result }
{
    let mut r = [0u32; GENERATORS];
    r[k] = 1;
    r
}

// Two rows say the same normal form of level i. As `x[..i] == y[..i]`, a call of its own, the consistency test took 1.04 to 1.16
// times as long.
pub fn same(i: usize, x: Row, y: Row) -> bool
    requires { i ≤ max_generators }
    ensures { result ≡ same_form i (to_nf i x) (to_nf i y) }
{
    for k in (0..i).rev() {
        if x[k] != y[k] {
            return false;
        }
    }
    true
}

// The row says the trivial form of level i.
pub fn empty(i: usize, x: Row) -> bool
    requires { i ≤ max_generators }
    ensures { result ≡ same_form i (to_nf i x) (trivial i) }
{
    same(i, x, [0; GENERATORS])
}

// One more than the highest of the first i exponents that is not 0; 0 where all are.
pub fn top(i: usize, x: &Row) -> usize
    requires { i ≤ max_generators }
    ensures { Top i x.now result }
{
    for k in (0..i).rev() {
        if x[k] != 0 {
            return k + 1;
        }
    }
    0
}

// The row of `low` below k, of s at k, and of `high` above k.
pub fn stacked(k: usize, low: Row, high: Row, s: u32) -> Row
    requires { k < max_generators }
    ensures { Stacked k low high s result }
{
    let mut r = high;
    r[..k].copy_from_slice(&low[..k]);
    r[k] = s;
    r
}

// The first k exponents of `low` in place of those of x.
pub fn copied(k: usize, low: Row, x: &mut Row)
    requires { (k ≤ max_generators) × (length x.old ≡ max_generators) }
    ensures { Mixed low x.old k x.new }
{
    x[..k].copy_from_slice(&low[..k]);
}
