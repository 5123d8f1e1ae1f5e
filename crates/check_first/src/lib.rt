// Level 1 of a table in one pass: as many representations of degree 1 as the prime of generator 0 says, which differ in the exponent
// of that generator. The tests are part of the fast acceptance test, and by design sound but not complete: `true` implies the condition,
// `false` implies nothing. `checker::judge` is exact.
//
//   mark, take                   the exponents that the power relation of generator 0 allows, and one of them
//   line_is                      a line of a representation of degree 1 on level 1
//   conjugate, led_to            a generator above generator 0
//   images_ok                    all of them
//   character, all_characters, characters     a representation, and all of level 1
//   level_one                    the heads of the table, and level 1
#![tactic(auto)]

ghost use Rattle.std.specs.Prelude.{◌≡◌, true, suc, ◌+◌, ◌*◌, ◌≤◌, ◌<◌, length, IfSome};
ghost use Rattle.definitions.specs.Presentation.{max_generators, max_order};
ghost use Rattle.check_heads.specs.Places.{Scoped};
ghost use Rattle.check_first.specs.First.{word_on, exponent_of, Allowed, Takes, LineOne, LedTo};
ghost use Rattle.check_first.specs.First.{Parted, CharacterPlaced, SlotsMarked, RootImages, TakesCharacter, Characters, FirstLevel};

use conditions::size::Orders;
use rows::{ORDER, Rows};
use seek::Scope;

// ---- Exponents of generator 0

// Frees the first p multiples of a number, and nothing else; where that number is 1 they are freed at once.
fn mark(free: &mut [bool], p: usize, part: usize)
    requires { (0 < part) × (p * part ≤ length free.old) }
    ensures { Allowed (length free.old) p part free.new }
{
    free.fill(false);
    if part == 1 {
        free[..p].fill(true);
        return;
    }
    for e in (0..p * part).step_by(part) {
        free[e] = true;
    }
}

// Takes an exponent that is free.
fn take(free: &mut [bool], e: usize) -> bool
    ensures { result ≡ true → Takes e free.old free.new }
{
    if free.len() <= e {
        return false;
    }
    if !free[e] {
        return false;
    }
    free[e] = false;
    true
}

// ---- Lines

// The line is of generator g of representation k of level 1, of degree 1. Words are compared two by two.
fn line_is(words: &[u32], at: usize, k: usize, g: u32) -> bool
    requires { (8 * at + 8 ≤ length words.now) × (g < max_generators) × (k < max_order) }
    ensures { result ≡ true → LineOne words.now at k g }
{
    if check_lines::two_at(words, at, level::LEVEL) != 1 + k * check_lines::HIGH {
        return false;
    }
    check_lines::two_at(words, at, level::DEG) == 1 + level::up(g + 1) * check_lines::HIGH
}

// The exponent of generator 0 in its conjugate by generator j, unless it is above every order.
fn conjugate(rows: &Rows, j: u32) -> Option<u32>
    requires { (0 < j) × (j < max_generators) }
    ensures { IfSome result (λ a. (a ≤ max_order) × (a ≡ suc (word_on rows.now j))) }
{
    let at = rows::pair(level::up(j), 0);
    let w = rows[at][0];
    if level::up(w) >= ORDER {
        return None;
    }
    Some(w + 1)
}

// The line leads to one of p representations of n lines each, in which generator 0 has a times the exponent e.
fn led_to(words: &[u32], at: usize, n: usize, p: usize, a: u32, e: u32, m: u32) -> bool
    requires { (8 * at + 8 ≤ length words.now) × (8 * (p * n) ≤ length words.now) × (0 < n) × (a ≤ max_order) × (e < m) × (m ≤ max_order) }
    ensures { result ≡ true → LedTo words.now at n p a e m }
{
    let t = level::up(level::word_at(words, at, level::REF));
    if p <= t {
        return false;
    }
    let f = level::word_at(words, t * n, level::EXP);
    if a == 1 {
        return e == f;
    }
    a * e % m == f
}

// ---- Representations

// The lines of the generators above generator 0, which has the exponent e in representation k.
fn images_ok(words: &[u32], rows: &Rows, s: Scope, p: usize, k: usize, e: u32) -> bool
    requires { CharacterPlaced s words.now p k × (e ≡ exponent_of s.gens words.now k) × (e < s.m) }
    ensures { result ≡ true → RootImages s words.now rows.now p k }
{
    let gens = s.gens;
    let n = level::up(gens);
    let at = k * n;
    for j in 1..gens {
        let l = at + level::up(j);
        if !line_is(words, l, k, j) {
            return false;
        }
        if check_lines::two_at(words, l, level::COL) != 0 {
            return false;
        }
        if s.m <= level::word_at(words, l, level::EXP) {
            return false;
        }
        let Some(a) = conjugate(rows, j) else {
            return false;
        };
        if !led_to(words, l, n, p, a, e, s.m) {
            return false;
        }
    }
    true
}

// The lines of representation k; its exponent of generator 0 is free, and is taken.
fn character(words: &[u32], rows: &Rows, s: Scope, p: usize, k: usize, free: &mut [bool]) -> bool
    requires { SlotsMarked s words.now p free.old × (k < p) }
    ensures { result ≡ true → TakesCharacter s words.now rows.now p k free.old free.new }
{
    let at = k * level::up(s.gens);
    if !line_is(words, at, k, 0) {
        return false;
    }
    if check_lines::two_at(words, at, level::REF) != 0 {
        return false;
    }
    if level::word_at(words, at, level::ROW) != 0 {
        return false;
    }
    let e = level::word_at(words, at, level::EXP);
    if !take(free, level::up(e)) {
        return false;
    }
    images_ok(words, rows, s, p, k, e)
}

// The first p representations are right, with exponents modulo m = p * part.
fn all_characters(
    words: &[u32],
    rows: &Rows,
    s: Scope,
    p: usize,
    part: usize,
    free: &mut [bool],
) -> bool
    requires { Parted s words.now p part × (s.m ≤ length free.old) }
    ensures { result ≡ true → Characters s words.now rows.now p }
{
    mark(free, p, part);
    for k in 0..p {
        if !character(words, rows, s, p, k, free) {
            return false;
        }
    }
    true
}

// The first p representations are those of a right level 1, where p is the prime of generator 0 and there are marks for all exponents.
fn characters(words: &[u32], rows: &Rows, s: Scope, p: u32, free: &mut [bool]) -> bool
    requires { Scoped s words.now × (0 < s.m) }
    ensures { result ≡ true → Characters s words.now rows.now p }
{
    if p == 0 {
        return false;
    }
    if level::up(s.m) > ORDER {
        return false;
    }
    if level::up(s.m) > free.len() {
        return false;
    }
    let many = level::up(p);
    let part = level::up(s.m / p);
    if many * part != level::up(s.m) {
        return false;
    }
    if many * level::up(s.gens) > s.lines {
        return false;
    }
    all_characters(words, rows, s, many, part, free)
}

// The table is complete with possible degrees, and its level 1 is right, where p is the prime of generator 0. Sound, not complete.
pub fn level_one(
    words: &[u32],
    rows: &Rows,
    orders: &Orders,
    s: Scope,
    p: u32,
    free: &mut [bool],
) -> bool
    requires { Scoped s words.now × (0 < s.m) }
    ensures { result ≡ true → FirstLevel s words.now rows.now orders.now p }
{
    if orders[1] != p {
        return false;
    }
    if !characters(words, rows, s, p, free) {
        return false;
    }
    if !check_heads::heads_behind(words, orders, s, level::up(p)) {
        return false;
    }
    seek::count_of(words, s, 1) == level::up(p)
}
