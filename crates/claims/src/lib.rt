// Whether the representations of a level differ in what they claim of the level below: one that refers to a single
// representation claims a slot of it, told by its exponent of the generator on top, and any other claims what it refers to
// whole. One pass over the level, with a mark for each representation of the level below and one for each slot.
//
//   Mark                            what is claimed of a representation below
//   one_reference                   whether all columns have one reference
//   take, take_all                  what is claimed whole
//   slot, share                     a slot
//   claim, first_clash              one representation, and all of a level
#![tactic(auto)]

ghost use Rattle.std.specs.Prelude.{◌≡◌, true, suc, ◌+◌, ◌*◌, ◌/◌, ◌≤◌, ◌<◌, length};
ghost use Rattle.definitions.specs.Table.{level_at};
ghost use Rattle.seek.specs.Seek.{Whole, HasLines};
ghost use Rattle.seek.specs.Among.{rep_in};
ghost use Rattle.claims.specs.Claims.{one_reference, Took, TookAll, Shares, ClaimedIn, FirstClash};

use level::Listed;
use rows::ORDER;
use seek::{Reps, Scope};

// What is claimed of a representation of the level below: nothing, slots, or all of it.
#[derive(Clone, Copy, PartialEq, Eq)]
pub enum Mark {
    Free,
    Shared,
    Taken,
}

// All columns of generator 0 have the reference of column 0.
fn one_reference(words: &[u32], d: Listed) -> bool
    requires { (0 < d.deg) × (8 * (d.line + d.deg) ≤ length words.now) }
    ensures { result ≡ one_reference (rep_in words.now d) }
{
    let line = d.line;
    let deg = level::up(d.deg);
    let first = level::word_at(words, line, level::REF);
    for c in 0..deg {
        if level::word_at(words, line + c, level::REF) != first {
            return false;
        }
    }
    true
}

// Claims f whole, where nobody has claimed it, or where it is the one claimed last.
fn take(marks: &mut [Mark], f: usize, last: usize) -> bool
    ensures { result ≡ true → Took f last marks.old marks.new }
{
    if marks.len() <= f {
        return false;
    }
    if f == last {
        return true;
    }
    if marks[f] != Mark::Free {
        return false;
    }
    marks[f] = Mark::Taken;
    true
}

// Claims whole what the columns of d refer to.
fn take_all(words: &[u32], d: Listed, marks: &mut [Mark]) -> bool
    requires { 8 * (d.line + d.deg) ≤ length words.now }
    ensures { result ≡ true → TookAll (rep_in words.now d) marks.old marks.new }
{
    let line = d.line;
    let deg = level::up(d.deg);
    let mut last = marks.len();
    for c in 0..deg {
        let f = level::up(level::word_at(words, line + c, level::REF));
        if !take(marks, f, last) {
            return false;
        }
        last = f;
    }
    true
}

// Claims a slot of f, where nobody has claimed the slot, nor f whole.
fn share(marks: &mut [Mark], slots: &mut [bool], f: usize, slot: usize) -> bool
    ensures { result ≡ true → Shares f slot marks.old marks.new slots.old slots.new }
{
    if marks.len() <= f {
        return false;
    }
    if slots.len() <= slot {
        return false;
    }
    if marks[f] == Mark::Taken {
        return false;
    }
    if slots[slot] {
        return false;
    }
    marks[f] = Mark::Shared;
    slots[slot] = true;
    true
}

// The slot of a representation with the reference f and the exponent e.
fn slot(f: u32, p: u32, e: u32, part: u32) -> usize
    requires { 0 < part }
    ensures { result ≡ f * p + e / part }
{
    level::up(f) * level::up(p) + level::up(e / part)
}

// Marks what d claims, where i is the top generator, p its prime, and `part` the share of the modulus that a slot stands for. Sound,
// not complete: `true` implies that nothing of it was claimed before.
pub fn claim(
    words: &[u32],
    i: u32,
    p: u32,
    part: u32,
    d: Listed,
    marks: &mut [Mark],
    slots: &mut [bool],
) -> bool
    requires { HasLines words.now i d × (0 < part) }
    ensures { result ≡ true → ClaimedIn words.now i p part d marks.old marks.new slots.old slots.new }
{
    if !one_reference(words, d) {
        return take_all(words, d, marks);
    }
    let f = level::word_at(words, d.line, level::REF);
    let e = level::word_at(words, level::matrix_line(d, i), level::EXP);
    share(marks, slots, level::up(f), slot(f, p, e, part))
}

// The first representation of the level above level i that claims what one before it has claimed, or a slot that there is not, where
// p is the prime of generator i.
pub fn first_clash(words: &[u32], s: Scope, i: u32, p: u32) -> Option<usize>
    requires { Whole s words.now × (i < s.gens) }
    ensures { FirstClash i (level_at s.gens words.now (suc i)) result }
{
    if p == 0 {
        return Some(0);
    }
    let part = s.m / p;
    if part == 0 {
        return Some(0);
    }
    let mut marks = [Mark::Free; ORDER];
    let mut slots = [false; ORDER];
    for (r, d) in Reps::of(words, s, i + 1).enumerate() {
        if !claim(words, i, p, part, d, &mut marks, &mut slots) {
            return Some(r);
        }
    }
    None
}
