// The lines of presentation text: the names line, and the parts of a line of values.
//
//   names          the names line, and with it n
//   head           j, i and p of a line
//   exponents      the n exponents of a line, and its end
//   next_pair      the pair of the next line
//   keep           keeps a line
//   still_prime    the primes so far, with one more
//   read_lines     all lines of values
#![tactic(auto)]

ghost use Rattle.std.specs.Prelude.{◌≡◌, ◌&&◌, [], ◌∷◌, ◌+◌, ◌<◌, ◌≤◌, length, drop};
ghost use Rattle.definitions.specs.Text.{largest};
ghost use Rattle.definitions.specs.Presentation.{pair_count, pair_number};
ghost use Rattle.text.specs.Reading.{Ends, ReadAt};
ghost use Rattle.reader.specs.Lines.{NamesAt, HeadAt, WordAt};
ghost use Rattle.reader.specs.Rows.{passes, RowKept, LinesAt};

use conditions::prime::is_prime;
use rows::{GENERATORS, PAIRS, Row, Rows};

// The number in the exponent's name at a position.
fn next_name(text: &[u8], at: usize) -> Option<(u32, usize)>
    ensures { ReadAt (32 ∷ 101 ∷ []) text.now at result }
{
    if text::byte_at(text, at) != b' ' {
        return None;
    }
    text::value_behind(text, at + 1, b'e')
}

// The names line: n, and the position behind the line.
pub fn names(text: &[u8]) -> Option<(u32, usize)>
    ensures { NamesAt text.now result }
{
    if !text::starts(text, 0, b"j i p") {
        return None;
    }
    let mut n: u32 = 0;
    let mut at: usize = 5;
    // The next name stands where the last one ends.
    while text::byte_at(text, at) == b' ' {
        let (v, next) = next_name(text, at)?;
        if v != n + 1 {
            return None;
        }
        n = v;
        at = next;
    }
    if n == 0 {
        return None;
    }
    if text::byte_at(text, at) != b'\n' {
        return None;
    }
    Some((n, at + 1))
}

// The p of the line of the pair (j, i), and the position behind it.
fn head(text: &[u8], at: usize, j: u32, i: u32) -> Option<(u32, usize)>
    requires { (j < largest) × (i ≤ j) }
    ensures { HeadAt text.now at j i result }
{
    let (a, next) = text::value(text, at)?;
    if a != j + 1 {
        return None;
    }
    let (b, behind) = text::value_behind(text, next, b' ')?;
    if b != i + 1 {
        return None;
    }
    text::value_behind(text, behind, b' ')
}

// The n exponents behind the p of a line, of which as many are kept as a row has, and the position behind the end of the line.
fn exponents(text: &[u8], at: usize, n: u32) -> Option<(Row, usize)>
    requires { (at ≤ length text.now) × Ends (drop at text.now) }
    ensures { WordAt text.now at n result }
{
    let mut kept = [0u32; GENERATORS];
    let mut next = at;
    for k in 0..n as usize {
        let (e, behind) = text::value_behind(text, next, b' ')?;
        if k < GENERATORS {
            kept[k] = e;
        }
        next = behind;
    }
    if text::byte_at(text, next) != b'\n' {
        return None;
    }
    Some((kept, next + 1))
}

// A pair of generators, i at most j.
#[derive(Clone, Copy)]
pub struct Pair {
    pub j: u32,
    pub i: u32,
}

// The pair with the next number.
fn next_pair(j: u32, i: u32) -> Pair
    requires { (j < largest) × (i ≤ j) }
    ensures { (pair_number result.j result.i ≡ pair_number j i + 1) × (result.i ≤ result.j) × (result.j ≤ j + 1) }
{
    if i < j {
        if i + 1 < j {
            return Pair { j, i: i + 1 };
        }
        return Pair { j: j + 1, i: j + 1 };
    }
    if j == 0 {
        return Pair { j: 1, i: 1 };
    }
    Pair { j, i: 0 }
}

// Keeps a line, if there is a row for it.
fn keep(rows: &mut Rows, ps: &mut [u32; PAIRS], k: usize, p: u32, e: Row)
    ensures { RowKept rows.old ps.old k p e rows.new ps.new }
{
    if k < PAIRS {
        rows[k] = e;
        ps[k] = p;
    }
}

// Whether every p of a line i = j has been prime.
fn still_prime(primes: bool, j: u32, i: u32, p: u32) -> bool
    requires { p ≤ largest }
    ensures { result ≡ (primes && passes j i p) }
{
    if !primes {
        return false;
    }
    if i != j {
        return true;
    }
    is_prime(p)
}

// The lines of values of a text, from the end of its names line to its own, and whether every p of a line i = j is prime. Those are
// kept for which there is a row.
pub fn read_lines(
    text: &[u8],
    start: usize,
    n: u32,
    rows: &mut Rows,
    ps: &mut [u32; PAIRS],
) -> Option<bool>
    requires { (start ≤ length text.now) × (n ≤ largest) × (length rows.old ≡ pair_count) × (length ps.old ≡ pair_count) }
    ensures { LinesAt text.now start n rows.new ps.new result }
{
    let mut at = start;
    let mut j: u32 = 0;
    let mut i: u32 = 0;
    let mut k: usize = 0;
    let mut primes = true;
    // Pair and number go on together: the number of all pairs is too large for a range where n is.
    while j < n {
        let (p, behind) = head(text, at, j, i)?;
        let (e, next) = exponents(text, behind, n)?;
        primes = still_prime(primes, j, i, p);
        keep(rows, ps, k, p, e);
        at = next;
        k += 1;
        let q = next_pair(j, i);
        j = q.j;
        i = q.i;
    }
    if at != text.len() {
        return None;
    }
    Some(primes)
}
