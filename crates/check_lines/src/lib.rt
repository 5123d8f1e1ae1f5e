// What refusal 21 asks of the lines of one representation, without a look at another: its matrices are matrices, the
// generators of its level have the same references, and each intertwiner has one reference, to a listed representation.
//
//   HIGH                     what a second word is multiplied by
//   two_at                   two words of a line as one number
//   entry_ok, entries_ok     rows and exponents in range
//   has_row, rows_found      every row is there
//   matrix_marked, matrix_ok, matrices_ok     matrices
//   refs_are                 lines that all refer to one representation
//   refs_as, refs_equal      generators that refer as the first one does
//   target_ok, targets_ok    where the intertwiners lead
#![tactic(auto)]

ghost use Rattle.std.specs.Prelude.{◌≡◌, ◌||◌, ℕ, ◌+◌, ◌*◌, ◌≤◌, ◌<◌, ltb, length};
ghost use Rattle.definitions.specs.Lists.{all_below};
ghost use Rattle.definitions.specs.Presentation.{max_degree};
ghost use Rattle.definitions.specs.Monomial.{valid};
ghost use Rattle.level.specs.Stored.{entry_in, matrix_in, line_in, generator_in};
ghost use Rattle.check_lines.specs.Lines.{TwoWords, entry_ok, has_row, refs_are, refs_as, target_ok};

use level::Listed;
use rows::DEGREES;

// One more than the largest word.
pub const HIGH: usize = 4294967296;

// Two words of a line as one number, so that they are compared at once.
pub fn two_at(words: &[u32], at: usize, k: usize) -> usize
    requires { (8 * at + 8 ≤ length words.now) × (k < 7) }
    ensures { TwoWords words.now at k result }
{
    let a = level::up(level::word_at(words, at, k));
    let b = level::up(level::word_at(words, at, k + 1));
    a + b * HIGH
}

// Row and exponent of a line are below the degree d and the modulus m.
fn entry_ok(words: &[u32], at: usize, d: u32, m: u32) -> bool
    requires { 8 * at + 8 ≤ length words.now }
    ensures { result ≡ entry_ok m d (entry_in words.now at) }
{
    let e = level::entry_at(words, at);
    if d <= e.row {
        return false;
    }
    e.exp < m
}

// Those of the d lines from one on.
fn entries_ok(words: &[u32], at: usize, d: u32, m: u32) -> bool
    requires { 8 * (at + d) ≤ length words.now }
    ensures { result ≡ all_below d (λ (c : ℕ). entry_ok m d (entry_in words.now (at + c))) }
{
    for c in 0..d {
        if !entry_ok(words, at + level::up(c), d, m) {
            return false;
        }
    }
    true
}

// One of the d lines has row r.
fn has_row(words: &[u32], at: usize, d: u32, r: u32) -> bool
    requires { 8 * (at + d) ≤ length words.now }
    ensures { result ≡ has_row words.now at d r }
{
    for c in 0..d {
        if level::word_at(words, at + level::up(c), level::ROW) == r {
            return true;
        }
    }
    false
}

// Every row below d is there, one after the other.
fn rows_found(words: &[u32], at: usize, d: u32) -> bool
    requires { 8 * (at + d) ≤ length words.now }
    ensures { result ≡ all_below d (has_row words.now at d) }
{
    for r in 0..d {
        if !has_row(words, at, d, r) {
            return false;
        }
    }
    true
}

// The d lines from one on are a matrix, where rows are marked: rows and exponents in range, and no two lines have one row.
fn matrix_marked(words: &[u32], at: usize, d: u32, m: u32) -> bool
    requires { (8 * (at + d) ≤ length words.now) × (d ≤ max_degree) }
    ensures { result ≡ valid m d (matrix_in words.now at d) }
{
    let deg = level::up(d);
    let mut seen = [false; DEGREES];
    for c in 0..deg {
        if !entry_ok(words, at + c, d, m) {
            return false;
        }
        let r = level::up(level::word_at(words, at + c, level::ROW));
        if seen[r] {
            return false;
        }
        seen[r] = true;
    }
    true
}

// The d lines from one on are a matrix of degree d with exponents below m.
fn matrix_ok(words: &[u32], at: usize, d: u32, m: u32) -> bool
    requires { 8 * (at + d) ≤ length words.now }
    ensures { result ≡ valid m d (matrix_in words.now at d) }
{
    if d == 1 {
        return entry_ok(words, at, d, m);
    }
    if level::up(d) <= DEGREES {
        return matrix_marked(words, at, d, m);
    }
    if !entries_ok(words, at, d, m) {
        return false;
    }
    rows_found(words, at, d)
}

// The matrices of the first n generators.
pub fn matrices_ok(words: &[u32], d: Listed, n: u32, m: u32) -> bool
    requires { 8 * line_in d n ≤ length words.now }
    ensures { result ≡ all_below n (λ (g : ℕ). valid m d.deg (generator_in words.now d g)) }
{
    for g in 0..n {
        if !matrix_ok(words, level::matrix_line(d, g), d.deg, m) {
            return false;
        }
    }
    true
}

// The k lines from one on refer to x.
pub fn refs_are(words: &[u32], at: usize, k: u32, x: u32) -> bool
    requires { 8 * (at + k) ≤ length words.now }
    ensures { result ≡ refs_are words.now at k x }
{
    for c in 0..k {
        if level::word_at(words, at + level::up(c), level::REF) != x {
            return false;
        }
    }
    true
}

// The columns of generator g refer as those of the first generator.
fn refs_as(words: &[u32], d: Listed, g: u32) -> bool
    requires { (8 * (line_in d g + d.deg) ≤ length words.now) × (8 * (line_in d 0 + d.deg) ≤ length words.now) }
    ensures { result ≡ refs_as words.now d g }
{
    let at = level::matrix_line(d, g);
    let first = level::matrix_line(d, 0);
    for c in 0..d.deg {
        let k = level::up(c);
        if level::word_at(words, at + k, level::REF)
            != level::word_at(words, first + k, level::REF)
        {
            return false;
        }
    }
    true
}

// So do those of the first n generators.
pub fn refs_equal(words: &[u32], d: Listed, n: u32) -> bool
    requires { 8 * line_in d n ≤ length words.now }
    ensures { result ≡ all_below n (refs_as words.now d) }
{
    for g in 0..n {
        if !refs_as(words, d, g) {
            return false;
        }
    }
    true
}

// The columns of generator j refer to one representation, of the first `many`.
fn target_ok(words: &[u32], d: Listed, j: u32, many: usize) -> bool
    requires { (8 * (line_in d j + d.deg) ≤ length words.now) × (0 < d.deg) }
    ensures { result ≡ target_ok words.now d many j }
{
    let at = level::matrix_line(d, j);
    let x = level::word_at(words, at, level::REF);
    if many <= level::up(x) {
        return false;
    }
    refs_are(words, at, d.deg, x)
}

// So do those of every generator from i on, of n.
pub fn targets_ok(words: &[u32], d: Listed, i: u32, n: u32, many: usize) -> bool
    requires { (8 * line_in d n ≤ length words.now) × (0 < d.deg) }
    ensures { result ≡ all_below n (λ (j : ℕ). ltb j i || target_ok words.now d many j) }
{
    for j in i..n {
        if !target_ok(words, d, j, many) {
            return false;
        }
    }
    true
}
