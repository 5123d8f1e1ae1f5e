// Representations of a whole table, found by number. Nothing is asked of the table but that it is complete, and no array
// grows with it: the lines stand in order, so a search by halves finds a representation.
//
//   Scope            what a table is read with
//   FURTHEST         how far a guess goes
//   find             the first line of a representation, by halves
//   stride, onward, guess            where it would be if all between had one degree
//   ends_at, find_near, found_near   a representation whose line a guess may tell
//   found            a representation by level and number
//   start_of         the first line of a level
//   Reps             the representations of a level, one after the other
//   degree_of        the degree of a representation, of level 0 too
//   count_of         how many representations a level has, level 0 too
#![tactic(auto)]

ghost use Rattle.std.specs.Prelude.{◌≡◌, true, ◌+◌, ◌*◌, ◌-◌, ◌≤◌, ◌<◌, length, IfSome};
ghost use Rattle.definitions.specs.Presentation.{max_generators, max_order};
ghost use Rattle.definitions.specs.Monomial.{rep_of};
ghost use Rattle.definitions.specs.Table.{REP, word_at, line_count, level_at, first_line};
ghost use Rattle.heads.specs.Order.{before, Split, Splits};
ghost use Rattle.seek.specs.Seek.{Whole, Found};
ghost use Rattle.seek.specs.Walk.{Walks};
ghost use Rattle.std.specs.Iterator.{at_most};

use level::Listed;
use rows::ORDER;

// No two numbers of representations are further apart.
const FURTHEST: usize = 4294967295;

// How many lines there are, how many generators, and the modulus of the exponents.
#[derive(Clone, Copy)]
pub struct Scope {
    pub lines: usize,
    pub gens: u32,
    pub m: u32,
}

// Line l stands before representation r of level i.
fn stands_before(words: &[u32], i: u32, r: usize, l: usize) -> bool
    requires { 8 * l + 8 ≤ length words.now }
    ensures { result ≡ before words.now i r l }
{
    let w = level::word_at(words, l, level::LEVEL);
    if w < i {
        return true;
    }
    if i < w {
        return false;
    }
    level::up(level::word_at(words, l, level::REP)) < r
}

// The line behind all lines before representation r of level i.
fn find(words: &[u32], lines: usize, i: u32, r: usize) -> usize
    requires { (lines ≡ line_count words.now) × Splits words.now i r }
    ensures { Split words.now i r result }
{
    let mut lo: usize = 0;
    let mut hi = lines;
    // A search by halves: std's finds an element of a slice, and a line is eight.
    while lo < hi {
        let mid = lo + (hi - lo) / 2;
        if stands_before(words, i, r, mid) {
            lo = mid + 1;
        } else {
            hi = mid;
        }
    }
    lo
}

// The lines of a representation of this degree, unless it is above every order.
fn stride(gens: u32, deg: u32) -> Option<usize>
    requires { gens ≤ max_generators }
    ensures { IfSome result (λ k. k ≤ max_generators * max_order) }
{
    if level::up(deg) > ORDER {
        return None;
    }
    Some(level::up(gens) * level::up(deg))
}

// From a line of representation q to that of representation r, so many lines for each between, unless that leads too far.
fn onward(near: usize, q: u32, r: usize, step: usize) -> Option<usize>
    requires { (8 * near < 18446744073709551616) × (step ≤ max_generators * max_order) }
{
    let from = level::up(q);
    if from <= r {
        if r - from > FURTHEST {
            return None;
        }
        return Some(near + (r - from) * step);
    }
    near.checked_sub((from - r) * step)
}

// Where representation r begins if all between it and that of line `near`, of the same level, have one degree.
fn guess(words: &[u32], s: Scope, r: usize, near: usize) -> Option<usize>
    requires { Whole s words.now }
{
    if s.lines <= near {
        return None;
    }
    let q = level::word_at(words, near, level::REP);
    let deg = level::word_at(words, near, level::DEG);
    onward(near, q, r, stride(s.gens, deg)?)
}

// Line x is the line behind all lines before representation r of level i.
fn ends_at(words: &[u32], lines: usize, i: u32, r: usize, x: usize) -> bool
    requires { (lines ≡ line_count words.now) × Splits words.now i r }
    ensures { result ≡ true → Split words.now i r x }
{
    if lines <= x {
        return false;
    }
    if stands_before(words, i, r, x) {
        return false;
    }
    if x == 0 {
        return true;
    }
    stands_before(words, i, r, x - 1)
}

// The first line of representation r of level i; `near` is any number, and saves the search where it is a line of the level
// and all representations between have one degree.
fn find_near(words: &[u32], s: Scope, i: u32, r: usize, near: usize) -> usize
    requires { Whole s words.now × Splits words.now i r }
    ensures { Split words.now i r result }
{
    if let Some(x) = guess(words, s, r, near)
        && ends_at(words, s.lines, i, r, x)
    {
        return x;
    }
    find(words, s.lines, i, r)
}

// Representation r of level i, looked for where `near` tells.
pub fn found_near(words: &[u32], s: Scope, i: u32, r: usize, near: usize) -> Listed
    requires { Whole s words.now × (0 < i) × (i ≤ s.gens) × (r < length (level_at s.gens words.now i)) }
    ensures { Found s.gens words.now i r result }
{
    level::representation(words, find_near(words, s, i, r, near))
}

// Representation r of level i.
pub fn found(words: &[u32], s: Scope, i: u32, r: usize) -> Listed
    requires { Whole s words.now × (0 < i) × (i ≤ s.gens) × (r < length (level_at s.gens words.now i)) }
    ensures { Found s.gens words.now i r result }
{
    found_near(words, s, i, r, s.lines)
}

// The first line of level i, a place to look near; level 0 has no lines.
pub fn start_of(words: &[u32], s: Scope, i: u32) -> usize
    requires { Whole s words.now × (i ≤ s.gens) }
    ensures { 0 < i → result ≡ first_line s.gens words.now i 0 }
{
    if i == 0 {
        return 0;
    }
    let d = found(words, s, i, 0);
    d.line
}

// The degree of representation r of level i, looked for where `near` tells.
pub fn degree_of(words: &[u32], s: Scope, i: u32, r: usize, near: usize) -> u32
    requires { Whole s words.now × (i ≤ s.gens) × (r < length (level_at s.gens words.now i)) }
    ensures { (result ≡ (rep_of (level_at s.gens words.now i) r).deg) × (0 < result) }
{
    if i == 0 {
        return 1;
    }
    let d = found_near(words, s, i, r, near);
    d.deg
}

// One more than the rep of the line before line e.
fn reps_before(words: &[u32], e: usize) -> usize
    requires { (0 < e) × (8 * e ≤ length words.now) }
    ensures { result ≡ word_at words.now (e - 1) REP + 1 }
{
    level::up(level::word_at(words, e - 1, level::REP)) + 1
}

// How many representations level i has.
pub fn count_of(words: &[u32], s: Scope, i: u32) -> usize
    requires { Whole s words.now × (i ≤ s.gens) }
    ensures { result ≡ length (level_at s.gens words.now i) }
{
    if i == 0 {
        return 1;
    }
    if i == s.gens {
        return reps_before(words, s.lines);
    }
    reps_before(words, find(words, s.lines, i + 1, 0))
}

// A walk over the representations of a level: how many there are, which is next, and its first line.
#[derive(Drop)]
pub struct Reps<'a> {
    words: &'a [u32],
    scope: Scope,
    level: u32,
    many: usize,
    rep: usize,
    line: usize,
    ghost walks: { Walks scope words.now level many rep line },
}

impl<'a> Reps<'a> {
    ghost use Rattle.seek.specs.Going.{Going};

    // The representations of level i, one after the other.
    pub fn of(words: &'a [u32], s: Scope, i: u32) -> Reps<'a>
        requires { Whole s words.now × (0 < i) × (i ≤ s.gens) }
        ensures { Going s words.now i 0 result }
    {
        let d = found(words, s, i, 0);
        Reps {
            words,
            scope: s,
            level: i,
            many: count_of(words, s, i),
            rep: 0,
            line: d.line,
        }
    }
}

impl<'a> Iterator for Reps<'a> {
    type Item = Listed;

    ghost use Rattle.seek.specs.Going.{Gives};

    ghost next_gives = { Gives };

    ghost remaining = { λ a. at_most (a.many - a.rep) };

    fn next(&mut self) -> Option<Listed> {
        if self.rep == self.many {
            return None;
        }
        let d = level::representation(self.words, self.line);
        self.line = level::matrix_line(d, self.scope.gens);
        self.rep += 1;
        Some(d)
    }
}
