// Reading a level off words, eight words to a line. No matrix is stored apart: a matrix of degree d is the d lines from one
// on. Nothing is asked but what whole lines, complete and in order, with valid matrices guarantee.
//
//   LEVEL .. EXP                 the fields of a line
//   word_at, entry_at, column    what stands in a line
//   apply, apply_times           a column moved through a matrix, once or several times
//   add_rounds, add_times        a product added to an exponent
//   Lap, lap_from, steps         turns until a basis index comes again; so many turns
//   gain, after_laps             what a lap adds; whole laps, and the turns behind them
//   power_of, power_entry        the power of a matrix on a column, and that with a signed exponent
//   Listed, representation       a representation: its first line and its degree
//   matrix_line, target          the line of a generator's matrix, and where its intertwiner leads
//   moved, moved_times, walked   a column moved through a generator, through it several times, through a word
//   scaled, scaled_times         the same through a generator times a power of the root
//   through                      column 0 moved through a generator of one representation and one of another
#![tactic(auto)]

ghost use Rattle.std.specs.Prelude.{◌≡◌, ℕ, suc, ◌+◌, ◌*◌, ◌%◌, ◌≤◌, ◌<◌, length};
ghost use Rattle.definitions.specs.Lists.{iter};
ghost use Rattle.definitions.specs.Presentation.{max_generators, to_nf};
ghost use Rattle.definitions.specs.Monomial.{entry, act, signed_power};
ghost use Rattle.definitions.specs.Table.{word_at};
ghost use Rattle.formulas.specs.Formulas.{walk, plus};
ghost use Rattle.signed.specs.Signs.{number};
ghost use Rattle.level.specs.Laps.{LapOf, ClosedLap, gained};
ghost use Rattle.level.specs.Stored.{entry_in, matrix_in, Below, Holds, line_in, generator_in, target_in, listed_in, through_in, Stored};

use definitions::Entry;
use rows::Row;
use signed::Signed;

// The fields of a line, by their place in it.
pub const LEVEL: usize = 0;

pub const REP: usize = 1;

pub const DEG: usize = 2;

pub const GEN: usize = 3;

pub const REF: usize = 4;

pub const COL: usize = 5;

pub const ROW: usize = 6;

pub const EXP: usize = 7;

// A word as a place: `usize` has no `From<u32>`, so the one cast that is needed is named.
pub fn up(x: u32) -> usize
    ensures { result ≡ x }
{
    x as usize
}

// Word k of a line.
pub fn word_at(words: &[u32], line: usize, k: usize) -> u32
    requires { (8 * line + 8 ≤ length words.now) × (k < 8) }
    ensures { result ≡ word_at words.now line k }
{
    words[8 * line + k]
}

// Row and exponent of a line.
pub fn entry_at(words: &[u32], line: usize) -> Entry
    requires { 8 * line + 8 ≤ length words.now }
    ensures { result ≡ entry_in words.now line }
{
    Entry {
        row: word_at(words, line, ROW),
        exp: word_at(words, line, EXP),
    }
}

// Column k of the matrix of degree d at line `at`.
pub fn column(words: &[u32], at: usize, d: u32, k: u32, m: u32) -> Entry
    requires { Holds m words.now at d × (k < d) }
    ensures { (result ≡ entry_in words.now (at + k)) × Below m d result }
{
    entry_at(words, at + k as usize)
}

// The matrix of degree d at line `at`, on the x.exp-th power of the root times basis vector x.row.
fn apply(words: &[u32], at: usize, d: u32, x: Entry, m: u32) -> Entry
    requires holds { Holds m words.now at d }
    requires below { Below m d x }
    ensures { (result ≡ act m (matrix_in words.now at d) x) × Below m d result }
{
    let e = column(words, at, d, x.row, m);
    Entry {
        row: e.row,
        exp: modular::add_mod(e.exp, x.exp, m),
    }
}

// a + k * b modulo m, by one remainder.
fn add_rounds(a: u32, k: usize, b: u32, m: u32) -> u32
    requires { (a < m) × (b < m) × (m ≤ 2147483648) × (k ≤ 4294967296) }
    ensures { (result ≡ (a + k * b) % m) × (result < m) }
{
    ((a as usize + k * b as usize) % m as usize) as u32
}

// a + k * b modulo m.
pub fn add_times(a: u32, k: u32, b: u32, m: u32) -> u32
    requires { (a < m) × (b < m) × (m ≤ 2147483648) }
    ensures { (result ≡ (a + k * b) % m) × (result < m) }
{
    if k == 1 {
        return modular::add_mod(a, b, m);
    }
    add_rounds(a, k as usize, b, m)
}

// A matrix k times on an entry, turn by turn.
fn steps(words: &[u32], at: usize, d: u32, k: u32, x: Entry, m: u32) -> Entry
    requires holds { Holds m words.now at d }
    requires below { Below m d x }
    ensures { (result ≡ iter (act m (matrix_in words.now at d)) k x) × Below m d result }
{
    let mut r = x;
    for _ in 0..k {
        r = apply(words, at, d, r, m);
    }
    r
}

// Turns of an entry, and where they lead.
#[derive(Clone, Copy)]
struct Lap {
    turns: u32,
    to: Entry,
}

// An entry turned by a matrix until its basis index comes again, but at most `most` times.
fn lap_from(words: &[u32], at: usize, d: u32, most: u32, x: Entry, m: u32) -> Lap
    requires holds { Holds m words.now at d × (0 < most) }
    requires below { Below m d x }
    ensures { LapOf m words.now at d most x result }
{
    let mut to = apply(words, at, d, x, m);
    let mut turns: u32 = 1;
    // The loop ends where the basis index comes again.
    while to.row != x.row && turns < most {
        to = apply(words, at, d, to, m);
        turns += 1;
    }
    Lap { turns, to }
}

// What a lap that takes exponent a to b adds for the number k: back, it is taken off.
fn gain(k: Signed, a: u32, b: u32, m: u32) -> u32
    requires { (a < m) × (b < m) × (m ≤ 2147483648) }
    ensures { (result ≡ gained m k a b) × (result < m) }
{
    match k {
        Signed::Forward(_) => modular::sub_mod(b, a, m),
        Signed::Back(_) => modular::sub_mod(a, b, m),
    }
}

// The k-th power of a matrix on an entry whose basis index comes again after the lap w: whole laps at once, then the turns that
// are left.
fn after_laps(words: &[u32], at: usize, d: u32, k: Signed, x: Entry, w: Lap, m: u32) -> Entry
    requires holds { Holds m words.now at d }
    requires below { Below m d x × ClosedLap m words.now at d x w }
    ensures { (result ≡ act m (signed_power m d (matrix_in words.now at d) (number k)) x) × Below m d result }
{
    let s = signed::rounds_of(k, w.turns);
    let e = gain(k, x.exp, w.to.exp, m);
    let y = Entry {
        row: x.row,
        exp: add_rounds(x.exp, s.rounds, e, m),
    };
    steps(words, at, d, s.rest, y, m)
}

// The matrix of degree d at line `at`, k times on an entry: turn by turn, by laps where the basis index comes again before, and
// by one product where it stays.
fn power_of(words: &[u32], at: usize, d: u32, k: u32, x: Entry, m: u32) -> Entry
    requires holds { Holds m words.now at d }
    requires below { Below m d x }
    ensures { (result ≡ iter (act m (matrix_in words.now at d)) k x) × Below m d result }
{
    if k == 0 {
        return x;
    }
    let z = column(words, at, d, x.row, m);
    if z.row == x.row {
        return Entry {
            row: x.row,
            exp: add_rounds(x.exp, k as usize, z.exp, m),
        };
    }
    let w = lap_from(words, at, d, k, x, m);
    if w.turns == k {
        return w.to;
    }
    after_laps(words, at, d, Signed::Forward(k), x, w, m)
}

// The power with any signed word as its exponent: 0 is the identity, and below zero are the powers of the inverse.
pub fn power_entry(words: &[u32], at: usize, d: u32, k: i32, x: Entry, m: u32) -> Entry
    requires holds { Holds m words.now at d }
    requires below { Below m d x }
    ensures { (result ≡ act m (signed_power m d (matrix_in words.now at d) k) x) × Below m d result }
{
    match Signed::from(k) {
        Signed::Forward(n) => power_of(words, at, d, n, x, m),
        Signed::Back(n) => {
            let w = lap_from(words, at, d, d, x, m);
            after_laps(words, at, d, Signed::Back(n), x, w, m)
        }
    }
}

// A matrix k times on an entry: the power, for an exponent of a word. What the call hands back is made anew of its fields, so
// that row and exponent come out of both ways in registers.
fn apply_times(words: &[u32], at: usize, d: u32, k: u32, x: Entry, m: u32) -> Entry
    requires holds { Holds m words.now at d }
    requires below { Below m d x }
    ensures { (result ≡ iter (act m (matrix_in words.now at d)) k x) × Below m d result }
{
    if k == 1 {
        return apply(words, at, d, x, m);
    }
    let y = power_of(words, at, d, k, x, m);
    Entry {
        row: y.row,
        exp: y.exp,
    }
}

// The value of the word w on its first n generators, whose matrices of degree d stand one behind the other from line `at`.
fn walk_word(words: &[u32], at: usize, d: u32, w: &Row, n: usize, x: Entry, m: u32) -> Entry
    requires n_le_max_generators { (n ≤ max_generators) × ((k : ℕ) → k < n → Holds m words.now (at + k * d) d) }
    requires below { Below m d x }
    ensures { (result ≡ walk m (λ (k : ℕ). matrix_in words.now (at + k * d) d) n (to_nf n w.now) x) × Below m d result }
{
    let mut row = x.row;
    let mut exp = x.exp;
    let mut g = at;
    for &e in &w[..n] {
        if e != 0 {
            let y = apply_times(words, g, d, e, Entry { row, exp }, m);
            row = y.row;
            exp = y.exp;
        }
        g += d as usize;
    }
    Entry { row, exp }
}

// A matrix of degree 1, k times: e is the exponent of the root.
fn single_times(words: &[u32], at: usize, k: u32, e: u32, m: u32) -> u32
    requires { Holds m words.now at 1 × (e < m) }
    ensures { (entry 0 result ≡ iter (act m (matrix_in words.now at 1)) k (entry 0 e)) × (result < m) }
{
    if k == 0 {
        return e;
    }
    let z = column(words, at, 1, 0, m);
    add_times(e, k, z.exp, m)
}

// The value of the word w on its first n generators, of degree 1.
fn single_word(words: &[u32], at: usize, w: &Row, n: usize, e: u32, m: u32) -> u32
    requires { (n ≤ max_generators) × ((k : ℕ) → k < n → Holds m words.now (at + k * 1) 1) × (e < m) }
    ensures { (entry 0 result ≡ walk m (λ (k : ℕ). matrix_in words.now (at + k * 1) 1) n (to_nf n w.now) (entry 0 e)) × (result < m) }
{
    let mut y = e;
    for k in 0..n {
        y = single_times(words, at + k, w[k], y, m);
    }
    y
}

// A representation that stands in lines: its first line, and its degree.
#[derive(Clone, Copy)]
pub struct Listed {
    pub line: usize,
    pub deg: u32,
}

// The one that begins at a line.
pub fn representation(words: &[u32], line: usize) -> Listed
    requires { 8 * line + 8 ≤ length words.now }
    ensures { result ≡ listed_in words.now line }
{
    Listed {
        line,
        deg: word_at(words, line, DEG),
    }
}

// The line at which the matrix of generator g begins; of the number of generators, the line behind the representation.
pub fn matrix_line(d: Listed, g: u32) -> usize
    requires { 8 * line_in d g < 18446744073709551616 }
    ensures { result ≡ line_in d g }
{
    d.line + g as usize * d.deg as usize
}

// Where the intertwiner of generator g leads.
pub fn target(words: &[u32], d: Listed, g: u32) -> u32
    requires { (m : ℕ) × Stored m (suc g) words.now d }
    ensures { result ≡ target_in words.now d g }
{
    word_at(words, matrix_line(d, g), REF)
}

// Generator g on an entry.
pub fn moved(words: &[u32], d: Listed, g: u32, x: Entry, m: u32) -> Entry
    requires { Stored m (suc g) words.now d × Below m d.deg x }
    ensures { (result ≡ act m (generator_in words.now d g) x) × Below m d.deg result }
{
    apply(words, matrix_line(d, g), d.deg, x, m)
}

// Generator g, k times on an entry.
pub fn moved_times(words: &[u32], d: Listed, g: u32, k: u32, x: Entry, m: u32) -> Entry
    requires { Stored m (suc g) words.now d × Below m d.deg x }
    ensures { (result ≡ iter (act m (generator_in words.now d g)) k x) × Below m d.deg result }
{
    power_of(words, matrix_line(d, g), d.deg, k, x, m)
}

// The word w on its first n generators on an entry, by exponents alone where the degree is 1.
pub fn walked(words: &[u32], d: Listed, w: &Row, n: usize, x: Entry, m: u32) -> Entry
    requires { (n ≤ max_generators) × Stored m n words.now d × Below m d.deg x }
    ensures { (result ≡ walk m (generator_in words.now d) n (to_nf n w.now) x) × Below m d.deg result }
{
    let at = d.line;
    if d.deg == 1 {
        return Entry {
            row: 0,
            exp: single_word(words, at, w, n, x.exp, m),
        };
    }
    walk_word(words, at, d.deg, w, n, x, m)
}

// Generator g, times the c-th power of the root, on an entry.
fn scaled(words: &[u32], d: Listed, g: u32, c: u32, x: Entry, m: u32) -> Entry
    requires { Stored m (suc g) words.now d × Below m d.deg x × (c < m) }
    ensures { (result ≡ plus m c (act m (generator_in words.now d g) x)) × Below m d.deg result }
{
    let y = moved(words, d, g, x, m);
    Entry {
        row: y.row,
        exp: modular::add_mod(y.exp, c, m),
    }
}

// Generator g, times the c-th power of the root, k times on an entry. A basis index that the generator fixes stays, and its
// exponent is a product.
pub fn scaled_times(words: &[u32], d: Listed, g: u32, c: u32, k: u32, x: Entry, m: u32) -> Entry
    requires { Stored m (suc g) words.now d × Below m d.deg x × (c < m) }
    ensures { (result ≡ iter (λ z. plus m c (act m (generator_in words.now d g) z)) k x) × Below m d.deg result }
{
    if k == 0 {
        return x;
    }
    let y = scaled(words, d, g, c, x, m);
    if k == 1 {
        return y;
    }
    if y.row == x.row {
        let e = column(words, matrix_line(d, g), d.deg, x.row, m);
        return Entry {
            row: x.row,
            exp: add_times(x.exp, k, modular::add_mod(e.exp, c, m), m),
        };
    }
    let mut r = y;
    for _ in 1..k {
        r = scaled(words, d, g, c, r, m);
    }
    r
}

// The exponent of column 0 moved through generator j, and then through generator g of e, of the same degree, times the c-th
// power of the root.
pub fn through(words: &[u32], d: Listed, j: u32, e: Listed, g: u32, c: u32, m: u32) -> u32
    requires { Stored m (suc j) words.now d × Stored m (suc g) words.now e × (e.deg ≡ d.deg) × (c < m) }
    ensures { (result ≡ through_in m words.now d j e g c) × (result < m) }
{
    let y = moved(words, d, j, Entry { row: 0, exp: 0 }, m);
    let z = scaled(words, e, g, c, y, m);
    z.exp
}
