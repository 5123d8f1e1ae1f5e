// Refusal 25 on a table to which 21 to 23 do not apply: the representations of each level are told apart by references and by
// exponents in column 0, in one pass where that is enough, and else pair by pair, the later one outside. No product is formed.
//
//   free_of, common_free                  references that a representation has not
//   alike, apart, earlier_apart           two representations of a level, and all before one
//   fresh_at, width, first_width          a block of one representation
//   blocks_differ, own                    all its blocks
//   stands_apart, pairs_apart             one with all before it, and all of a level
//   all_own                               the blocks of each of a level
//   suspect_apart, level_separated        whether all of a level are apart
//   separated                             whether all representations of every level are apart
#![tactic(auto)]

ghost use Rattle.std.specs.Prelude.{◌≡◌, ℕ, ◌+◌, ◌*◌, ◌≤◌, ◌<◌, length};
ghost use Rattle.definitions.specs.Lists.{all_below};
ghost use Rattle.definitions.specs.Presentation.{Presentation};
ghost use Rattle.definitions.specs.Table.{level_at};
ghost use Rattle.seek.specs.Formed.{Formed};
ghost use Rattle.separation.specs.Apart.{common_free, fresh, apart_at};
ghost use Rattle.seek.specs.Seek.{HasLines};
ghost use Rattle.seek.specs.Among.{rep_in};
ghost use Rattle.check_pairs.specs.Pairs.{other_ref, like_in, PlacedAt, Later, differ, own_of, RefersTo, width_in};
ghost use Rattle.check_pairs.specs.Pairs.{EarlierApart, StandsApart, AllOwn, LevelSeparated, AllSeparated};

use level::Listed;
use rows::Row;
use seek::{Reps, Scope};

// No column of e has the reference x.
fn free_of(words: &[u32], e: Listed, x: u32) -> bool
    requires { 8 * (e.line + e.deg) ≤ length words.now }
    ensures { result ≡ all_below e.deg (other_ref words.now e.line x) }
{
    let line = e.line;
    let deg = level::up(e.deg);
    for c in 0..deg {
        if level::word_at(words, line + c, level::REF) == x {
            return false;
        }
    }
    true
}

// No column of d has the reference of a column of e.
fn common_free(words: &[u32], d: Listed, e: Listed) -> bool
    requires { (8 * (d.line + d.deg) ≤ length words.now) × (8 * (e.line + e.deg) ≤ length words.now) }
    ensures { result ≡ common_free (rep_in words.now d) (rep_in words.now e) }
{
    let line = d.line;
    let deg = level::up(d.deg);
    for c in 0..deg {
        if !free_of(words, e, level::word_at(words, line + c, level::REF)) {
            return false;
        }
    }
    true
}

// Both have one degree and one first reference, where `one` says that e is one block.
fn alike(words: &[u32], one: bool, d: Listed, e: Listed) -> bool
    requires { (8 * d.line + 8 ≤ length words.now) × (8 * e.line + 8 ≤ length words.now) }
    ensures { result ≡ like_in words.now one d e }
{
    if !one {
        return false;
    }
    if d.deg != e.deg {
        return false;
    }
    level::word_at(words, d.line, level::REF) == level::word_at(words, e.line, level::REF)
}

// What tells d and e apart, on the level whose generator on top is i; `one` says that e is one block.
fn apart(words: &[u32], i: u32, one: bool, d: Listed, e: Listed) -> bool
    requires { HasLines words.now i d × HasLines words.now i e }
    ensures { result ≡ apart_at i one (rep_in words.now d) (rep_in words.now e) }
{
    if !alike(words, one, d, e) {
        return common_free(words, d, e);
    }
    let a = level::word_at(words, level::matrix_line(d, i), level::EXP);
    let b = level::word_at(words, level::matrix_line(e, i), level::EXP);
    a != b
}

// All representations before e, the one with number `last`, are apart from it on the level above level i.
fn earlier_apart(words: &[u32], s: Scope, i: u32, one: bool, e: Listed, last: usize) -> bool
    requires { Later s words.now i last one e }
    ensures { EarlierApart s words.now i last result }
{
    for d in Reps::of(words, s, i + 1).take(last) {
        if !apart(words, i, one, d, e) {
            return false;
        }
    }
    true
}

// No column of d before column o has its reference.
fn fresh_at(words: &[u32], d: Listed, o: u32) -> bool
    requires { 8 * (d.line + o) + 8 ≤ length words.now }
    ensures { result ≡ fresh (rep_in words.now d) o }
{
    let x = level::word_at(words, d.line + level::up(o), level::REF);
    free_of(
        words,
        Listed {
            line: d.line,
            deg: o,
        },
        x,
    )
}

// The degree of the representation of level i to which column o of d refers, looked for near a line.
fn width(words: &[u32], s: Scope, i: u32, near: usize, d: Listed, o: u32) -> u32
    requires { RefersTo s words.now i d o }
    ensures { (result ≡ width_in s words.now i d o) × (0 < result) }
{
    seek::degree_of(
        words,
        s,
        i,
        level::up(level::word_at(words, d.line + level::up(o), level::REF)),
        near,
    )
}

// The width of the first block of d, of the level above level i.
fn first_width(words: &[u32], s: Scope, i: u32, near: usize, d: Listed) -> u32
    requires { (r : ℕ) × PlacedAt s words.now i r d }
    ensures { (result ≡ width_in s words.now i d 0) × (0 < result) }
{
    if d.deg == 1 {
        return 1;
    }
    width(words, s, i, near, d, 0)
}

// d, of the level above level i, has p blocks, with references of their own.
fn blocks_differ(words: &[u32], s: Scope, i: u32, p: u32, near: usize, d: Listed) -> bool
    requires { (r : ℕ) × PlacedAt s words.now i r d }
    ensures { result ≡ differ (level_at s.gens words.now i) p (rep_in words.now d) }
{
    let deg = d.deg;
    let mut o: u32 = 0;
    let mut count: u32 = 0;
    // The next block begins behind this one, whose width only its reference tells.
    while o < deg {
        if !fresh_at(words, d, o) {
            return false;
        }
        o += width(words, s, i, near, d, o);
        count += 1;
    }
    count == p
}

// d, of the level above level i, is one block, or has p blocks that generator i moves, with references of their own.
fn own(words: &[u32], s: Scope, i: u32, p: u32, near: usize, d: Listed) -> bool
    requires { (r : ℕ) × PlacedAt s words.now i r d }
    ensures { result ≡ own_of (level_at s.gens words.now i) p i (rep_in words.now d) }
{
    let deg = d.deg;
    let w = first_width(words, s, i, near, d);
    if w == deg {
        return true;
    }
    if level::word_at(words, level::matrix_line(d, i), level::ROW) < w {
        return false;
    }
    blocks_differ(words, s, i, p, near, d)
}

// Representation r of the level above level i, where p is the prime of generator i: its blocks, and all before it apart from it.
fn stands_apart(words: &[u32], s: Scope, i: u32, p: u32, near: usize, r: usize) -> bool
    requires { ((P : Presentation) × Formed P s words.now) × (i < s.gens) × (r < length (level_at s.gens words.now (i + 1))) }
    ensures { StandsApart s words.now i p r result }
{
    let e = seek::found(words, s, i + 1, r);
    if !own(words, s, i, p, near, e) {
        return false;
    }
    let w = first_width(words, s, i, near, e);
    earlier_apart(words, s, i, w == e.deg, e, r)
}

// The representations of the level above level i are apart, pair by pair, where p is the prime of generator i.
fn pairs_apart(words: &[u32], s: Scope, i: u32, p: u32) -> bool
    requires { ((P : Presentation) × Formed P s words.now) × (i < s.gens) }
    ensures { LevelSeparated s words.now i p result }
{
    let near = seek::start_of(words, s, i);
    let reps = seek::count_of(words, s, i + 1);
    for r in 0..reps {
        if !stands_apart(words, s, i, p, near, r) {
            return false;
        }
    }
    true
}

// Each representation of the level above level i is one block, or has p blocks of its own.
fn all_own(words: &[u32], s: Scope, i: u32, p: u32) -> bool
    requires { ((P : Presentation) × Formed P s words.now) × (i < s.gens) }
    ensures { AllOwn s words.now i p result }
{
    let near = seek::start_of(words, s, i);
    for d in Reps::of(words, s, i + 1) {
        if !own(words, s, i, p, near, d) {
            return false;
        }
    }
    true
}

// The representations of the level above level i are apart, pair by pair; representation r, which is suspected, comes first.
fn suspect_apart(words: &[u32], s: Scope, i: u32, p: u32, r: usize) -> bool
    requires { ((P : Presentation) × Formed P s words.now) × (i < s.gens) × (r < length (level_at s.gens words.now (i + 1))) }
    ensures { LevelSeparated s words.now i p result }
{
    let near = seek::start_of(words, s, i);
    if !stands_apart(words, s, i, p, near, r) {
        return false;
    }
    pairs_apart(words, s, i, p)
}

// The representations of the level above level i are apart. Where no two claim one slot, their own blocks decide; else the first that
// does is suspected.
fn level_separated(words: &[u32], s: Scope, i: u32, p: u32) -> bool
    requires { ((P : Presentation) × Formed P s words.now) × (i < s.gens) }
    ensures { LevelSeparated s words.now i p result }
{
    match claims::first_clash(words, s, i, p) {
        None => all_own(words, s, i, p),
        Some(r) => suspect_apart(words, s, i, p, r),
    }
}

// Whether the representations of every level are apart, where those of the first `from` levels are: refusal 25 where 21 to 23 do not
// apply.
pub fn separated(words: &[u32], primes: &Row, s: Scope, from: u32) -> bool
    requires { (P : Presentation) × Formed P s words.now }
    ensures { AllSeparated s primes.now words.now from result }
{
    let gens = s.gens;
    for i in from..gens {
        if !level_separated(words, s, i, primes[level::up(i)]) {
            return false;
        }
    }
    true
}
