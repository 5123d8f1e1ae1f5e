// One level of a table above the first, compared with the level below: each line with one line below, and the relations of the
// top generator in column 0 and in the first column of each block. The tests are part of the fast acceptance test, and by design sound
// but not complete: `true` implies the condition, `false` implies nothing. `checker::judge` is exact.
//
//   RunEnd, run_lines, first_lines          the first lines of a level, in a list
//   level_compares                       all representations of the level
//   level_relates                        their intertwiners
//   level_fits                           the level
#![tactic(auto)]

ghost use Rattle.std.specs.Prelude.{◌≡◌, true, ◌≤◌, ◌<◌, length};
ghost use Rattle.commuting.specs.Commuting.{Quiet};
ghost use Rattle.seek.specs.Seek.{Whole};
ghost use Rattle.compare.specs.Staged.{max_lines, Staged};
ghost use Rattle.check_level.specs.Lines.{FirstLines, RunAsked, Ran};
ghost use Rattle.check_level.specs.Level.{Compares, Relates, LevelFits};

use claims::Mark;
use commuting::Reaches;
use compare::Stage;
use level::Listed;
use rows::Rows;
use seek::Scope;

// How far the first lines of a level are written: the representation behind those that have one degree, and its first line.
#[derive(Clone, Copy)]
pub struct RunEnd {
    pub next: usize,
    pub line: usize,
}

// Writes the first lines of the representations of level i from representation r on, which is d, into a list whose place `at` is that
// of the first, as long as they have the degree of d.
fn run_lines(
    words: &[u32],
    s: Scope,
    i: u32,
    d: Listed,
    firsts: &mut [u32],
    at: usize,
    r: usize,
    reps: usize,
) -> RunEnd
    requires { RunAsked s words.now i d (length firsts.old) at r reps }
    ensures { Ran s words.now i d at r firsts.old firsts.new result }
{
    let step = level::matrix_line(d, s.gens) - d.line;
    let mut line = d.line;
    for q in r..reps {
        if level::word_at(words, line, level::DEG) != d.deg {
            return RunEnd { next: q, line };
        }
        firsts[at + q] = line as u32;
        line += step;
    }
    RunEnd { next: reps, line }
}

// Writes the first lines of the representations of level i into a list, from place `at` on, and returns how many there are, unless
// the list has no room for them, or the squares of their degrees do not add up to the order of the level.
pub fn first_lines(
    words: &[u32],
    s: Scope,
    i: u32,
    order: u32,
    firsts: &mut [u32],
    at: usize,
) -> Option<usize>
    requires { Whole s words.now × (s.lines ≤ max_lines) × (0 < i) × (i ≤ s.gens) × (at ≤ length firsts.old) }
    ensures { FirstLines s words.now i order at firsts.old firsts.new result }
{
    let reps = seek::count_of(words, s, i);
    if firsts.len() - at < reps {
        return None;
    }
    let mut d = seek::found(words, s, i, 0);
    let mut left = level::up(order);
    let mut r: usize = 0;
    // A turn is a run of representations of one degree, whose length it finds.
    loop {
        let e = run_lines(words, s, i, d, firsts, at, r, reps);
        let q = check_blocks::square(d.deg);
        let k = e.next - r;
        if left / q < k {
            return None;
        }
        left -= k * q;
        r = e.next;
        if r == reps {
            if left == 0 {
                return Some(reps);
            }
            return None;
        }
        d = level::representation(words, e.line);
    }
}

// Every representation of the level is compared with those below, and asked the power relation of the generator on top; no two claim
// the same of the level below, by marks that are lent.
fn level_compares(
    words: &[u32],
    firsts: &[u32],
    rows: &Rows,
    s: Scope,
    g: Stage,
    marks: &mut [Mark],
    slots: &mut [bool],
) -> bool
    requires { Staged s words.now firsts.now g }
    ensures { result ≡ true → Compares s words.now rows.now g }
{
    if g.p == 0 {
        return false;
    }
    let part = s.m / g.p;
    if part == 0 {
        return false;
    }
    marks.fill(Mark::Free);
    slots.fill(false);
    let above = g.above;
    for r in 0..above {
        let d = compare::rep_at(words, firsts, g.high + r);
        if !check_single::rep_passes(words, firsts, rows, s, g, d) {
            return false;
        }
        if !claims::claim(words, g.top, g.p, part, d, marks, slots) {
            return false;
        }
    }
    true
}

// The intertwiners of every representation of a level that is compared carry the generator on top over, in single columns.
fn level_relates(
    words: &[u32],
    firsts: &[u32],
    rows: &Rows,
    reach: &Reaches,
    s: Scope,
    g: Stage,
) -> bool
    requires { Staged s words.now firsts.now g × Compares s words.now rows.now g × Quiet s.gens rows.now reach.now }
    ensures { result ≡ true → Relates s words.now firsts.now g rows.now }
{
    if g.top + 1 == s.gens {
        return true;
    }
    let above = g.above;
    for r in 0..above {
        let d = compare::rep_at(words, firsts, g.high + r);
        let x = level::up(level::word_at(words, d.line, level::REF));
        let f = compare::rep_at(words, firsts, g.low + x);
        if !check_columns::carries_all(words, firsts, rows, reach, s, g, d, f.deg) {
            return false;
        }
    }
    true
}

// The level is compatible with the level below. Sound, not complete.
pub fn level_fits(
    words: &[u32],
    firsts: &[u32],
    rows: &Rows,
    reach: &Reaches,
    s: Scope,
    g: Stage,
    marks: &mut [Mark],
    slots: &mut [bool],
) -> bool
    requires { Staged s words.now firsts.now g × Quiet s.gens rows.now reach.now }
    ensures { result ≡ true → LevelFits s words.now rows.now g.top g.p }
{
    if !level_compares(words, firsts, rows, s, g, marks, slots) {
        return false;
    }
    level_relates(words, firsts, rows, reach, s, g)
}
