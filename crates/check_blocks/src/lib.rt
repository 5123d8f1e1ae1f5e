// Refusal 23 on a table to which 21 does not apply: whether the generators below the top of each level act on every block as
// in what the block refers to. Refusal 26 on a complete table: whether the squares of the degrees of each level add up to its
// order.
//
//   column_acts, generator_acts, block_acts      a block, by columns and generators
//   block_at                                     what the block from a column refers to
//   blocks_act, level_acts                       all blocks of a representation, and of a level
//   restrictions_hold                            refusal 23
//   square, level_adds_up                        the squares of the degrees of a level
//   squares_hold                                 refusal 26
#![tactic(auto)]

ghost use Rattle.std.specs.Prelude.{◌≡◌, true, suc, ◌*◌, ◌≤◌, ◌<◌, eqb};
ghost use Rattle.definitions.specs.Lists.{all_below};
ghost use Rattle.definitions.specs.Presentation.{Presentation};
ghost use Rattle.definitions.specs.Table.{level_at};
ghost use Rattle.definitions.specs.Judgement.{whole_block, restricts};
ghost use Rattle.seek.specs.Seek.{Whole};
ghost use Rattle.seek.specs.Formed.{Formed, Tells};
ghost use Rattle.seek.specs.Among.{rep_in, Among, on_level};
ghost use Rattle.check_blocks.specs.Blocks.{Within, column_acts, Refers, Restricted};
ghost use Rattle.check_blocks.specs.Squares.{squares_in, AddsUp};

use definitions::Entry;
use level::Listed;
use rows::GENERATORS;
use seek::{Reps, Scope};

// ---- One block

// Column o + c of generator k of d is column c of that of f, moved by o.
fn column_acts(words: &[u32], s: Scope, d: Listed, o: u32, f: Listed, k: u32, c: u32) -> bool
    requires { Within s words.now d o f × (k < s.gens) × (c < f.deg) }
    ensures { result ≡ column_acts words.now d o f k c }
{
    let x = level::column(words, level::matrix_line(d, k), d.deg, o + c, s.m);
    let y = level::column(words, level::matrix_line(f, k), f.deg, c, s.m);
    x == Entry {
        row: o + y.row,
        exp: y.exp,
    }
}

// Every column of generator k.
fn generator_acts(words: &[u32], s: Scope, d: Listed, o: u32, f: Listed, k: u32) -> bool
    requires { Within s words.now d o f × (k < s.gens) }
    ensures { result ≡ all_below f.deg (column_acts words.now d o f k) }
{
    let deg = f.deg;
    for c in 0..deg {
        if !column_acts(words, s, d, o, f, k, c) {
            return false;
        }
    }
    true
}

// Each of the first i generators.
fn block_acts(words: &[u32], s: Scope, i: u32, d: Listed, o: u32, f: Listed) -> bool
    requires { Within s words.now d o f × (i ≤ s.gens) }
    ensures { result ≡ all_below i (λ k. all_below f.deg (column_acts words.now d o f k)) }
{
    for k in 0..i {
        if !generator_acts(words, s, d, o, f, k) {
            return false;
        }
    }
    true
}

// ---- One representation

// The representation of level i to which the block from column o refers, looked for near a line.
fn block_at(words: &[u32], s: Scope, i: u32, near: usize, d: Listed, o: u32) -> Listed
    requires { Among s words.now (suc i) d × (0 < i) × (o < d.deg) × (whole_block (level_at s.gens words.now i) (rep_in words.now d) o ≡ true) }
    ensures { Refers s words.now i d o result }
{
    let r = level::word_at(words, d.line + level::up(o), level::REF);
    seek::found_near(words, s, i, level::up(r), near)
}

// Every block of d, of the level above i.
fn blocks_act(words: &[u32], s: Scope, i: u32, near: usize, d: Listed) -> bool
    requires { Among s words.now (suc i) d × (0 < i) }
    ensures { Tells s words.now (λ P. restricts P s.m words.now (suc i) (rep_in words.now d)) result }
{
    let mut o: u32 = 0;
    // The next block begins behind this one, whose width only its reference tells.
    while o < d.deg {
        let f = block_at(words, s, i, near, d, o);
        if !block_acts(words, s, i, d, o, f) {
            return false;
        }
        o += f.deg;
    }
    true
}

// ---- Every representation

// Every block of every representation of the level above i.
fn level_acts(words: &[u32], s: Scope, i: u32) -> bool
    requires { ((P : Presentation) × Formed P s words.now) × (0 < i) × (i < s.gens) }
    ensures { Tells s words.now (λ P. on_level s.gens words.now (restricts P s.m words.now) (suc i)) result }
{
    let near = seek::start_of(words, s, i);
    for d in Reps::of(words, s, i + 1) {
        if !blocks_act(words, s, i, near, d) {
            return false;
        }
    }
    true
}

// Whether each generator below the top acts on every block as in what the block refers to, where it does so on the first `from`
// levels: refusal 23. No generator is below the top of level 1.
pub fn restrictions_hold(words: &[u32], s: Scope, from: u32) -> bool
    requires { (P : Presentation) × Formed P s words.now }
    ensures { Restricted s words.now from result }
{
    let gens = s.gens;
    for i in from.max(1)..gens {
        if !level_acts(words, s, i) {
            return false;
        }
    }
    true
}

// ---- Squares of degrees

// d times d.
pub fn square(d: u32) -> usize
    ensures { result ≡ d * d }
{
    level::up(d) * level::up(d)
}

// Whether the squares of the degrees of level i add up to its order. What is left of the order never wraps.
fn level_adds_up(words: &[u32], s: Scope, i: u32, order: u32) -> bool
    requires { Whole s words.now × (0 < i) × (i ≤ s.gens) }
    ensures { result ≡ eqb (squares_in s.gens words.now i) order }
{
    let mut left = level::up(order);
    for d in Reps::of(words, s, i) {
        let Some(rest) = left.checked_sub(square(d.deg)) else {
            return false;
        };
        left = rest;
    }
    left == 0
}

// Whether the squares of the degrees of every level add up to its order, where they do on the first `from` levels: refusal 26.
pub fn squares_hold(words: &[u32], orders: &[u32; GENERATORS + 1], s: Scope, from: u32) -> bool
    requires { Whole s words.now }
    ensures { AddsUp s orders.now words.now from result }
{
    let gens = s.gens;
    for i in from..gens {
        if !level_adds_up(words, s, i + 1, orders[level::up(i) + 1]) {
            return false;
        }
    }
    true
}
