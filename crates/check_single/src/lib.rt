// Representations of degree 1, compared with those of the level below and tested for their power relation by exponents alone; those of
// any degree by the same call. The tests are part of the fast acceptance test, and by design sound but not complete: `true` implies the
// condition, `false` implies nothing. `checker::judge` is exact.
//
//   SMALL, lines_value           lines that are those of a representation below, and the value of a word on them
//   single_takes, single_led, singles_led     the generator on top and those above it, on a representation of degree 1
//   single_value                 a representation of degree 1, compared with those below, and the value of the power word
//   times, single_power          an exponent, several times, and the power relation of the generator on top
//   rep_passes                   both of a representation of any degree
#![tactic(auto)]

ghost use Rattle.std.specs.Prelude.{◌≡◌, true, IfSome, ℕ, suc, ◌+◌, ◌*◌, ◌%◌, ◌≤◌, ◌<◌, length};
ghost use Rattle.definitions.specs.Presentation.{max_generators};
ghost use Rattle.definitions.specs.Table.{EXP, word_at};
ghost use Rattle.seek.specs.Seek.{Found};
ghost use Rattle.compare.specs.Staged.{Staged};
ghost use Rattle.compare.specs.Blocks.{block, Present, Based, TakesBlock, Upper, Uppers, RepFits};
ghost use Rattle.check_single.specs.Value.{LinesValue, SingleValue};
ghost use Rattle.check_single.specs.Power.{PowerHolds};

use compare::Stage;
use level::Listed;
use rows::{Row, Rows};
use seek::Scope;

// No exponent of a word of a right presentation is larger.
const SMALL: u32 = 65535;

// Where the n lines from `at` on refer to x and are those from src on: the exponents of these lines, each times that of the word u,
// added up. None where they are not, or u has an exponent that is too large.
fn lines_value(words: &[u32], at: usize, src: usize, n: u32, x: u32, u: &Row) -> Option<usize>
    requires { (8 * (at + n) ≤ length words.now) × (8 * (src + n) ≤ length words.now) × (n ≤ max_generators) }
    ensures { IfSome result (λ y. LinesValue words.now at src n x u.now y) }
{
    let mut y: usize = 0;
    for k in 0..n {
        let c = level::up(k);
        let a = u[c];
        if SMALL < a {
            return None;
        }
        if !compare::line_same(words, at + c, src + c, x) {
            return None;
        }
        y += level::up(a) * level::up(level::word_at(words, at + c, level::EXP));
    }
    Some(y)
}

// Generator g takes d, of degree 1, to e, as it takes what d refers to, up to a power of the root; its column refers to x.
fn single_takes(words: &[u32], s: Scope, d: Listed, e: Listed, f: Listed, g: u32, x: u32) -> bool
    requires { Based s words.now d (block 0 0 f) × (d.deg ≡ 1) × Present s words.now e × (g < s.gens) }
    ensures { result ≡ true → TakesBlock s words.now d e (block 0 0 f) g x }
{
    let k = level::up(g);
    let at = d.line + k;
    if level::word_at(words, at, level::REF) != x {
        return false;
    }
    if level::word_at(words, at, level::ROW) != 0 {
        return false;
    }
    if s.m <= level::word_at(words, at, level::EXP) {
        return false;
    }
    level::word_at(words, e.line, level::REF) == level::word_at(words, f.line + k, level::REF)
}

// Generator j, above the top, does so; it leads d to a representation of degree 1 over one of degree 1.
fn single_led(
    words: &[u32],
    firsts: &[u32],
    s: Scope,
    g: Stage,
    d: Listed,
    f: Listed,
    j: u32,
) -> bool
    requires { Staged s words.now firsts.now g × Based s words.now d (block 0 0 f) × (d.deg ≡ 1) × (j < s.gens) }
    ensures { result ≡ true → Upper s words.now g d (block 0 0 f) j }
{
    let x = level::word_at(words, d.line + level::up(j), level::REF);
    let r = level::up(x);
    if g.above <= r {
        return false;
    }
    let e = compare::rep_at(words, firsts, g.high + r);
    if e.deg != 1 {
        return false;
    }
    let y = level::up(level::word_at(words, e.line, level::REF));
    if g.below <= y {
        return false;
    }
    let h = compare::rep_at(words, firsts, g.low + y);
    if h.deg != 1 {
        return false;
    }
    single_takes(words, s, d, e, f, j, x)
}

// So do all generators above the top.
fn singles_led(words: &[u32], firsts: &[u32], s: Scope, g: Stage, d: Listed, f: Listed) -> bool
    requires { Staged s words.now firsts.now g × Based s words.now d (block 0 0 f) × (d.deg ≡ 1) }
    ensures { result ≡ true → Uppers s words.now g d (block 0 0 f) }
{
    let gens = s.gens;
    for j in g.top + 1..gens {
        if !single_led(words, firsts, s, g, d, f, j) {
            return false;
        }
    }
    true
}

// The value of the word u on d, of degree 1, where d fits on the level below: it refers to a representation of degree 1, whose lines
// it has below the top. None where it does not fit.
fn single_value(
    words: &[u32],
    firsts: &[u32],
    s: Scope,
    g: Stage,
    d: Listed,
    u: &Row,
) -> Option<usize>
    requires { Staged s words.now firsts.now g × Present s words.now d × (d.deg ≡ 1) }
    ensures { IfSome result (λ y. SingleValue s words.now g d u.now y) }
{
    let x = level::word_at(words, d.line, level::REF);
    let r = level::up(x);
    if g.below <= r {
        return None;
    }
    let f = compare::rep_at(words, firsts, g.low + r);
    if f.deg != 1 {
        return None;
    }
    if !single_takes(words, s, d, d, f, g.top, x) {
        return None;
    }
    if !singles_led(words, firsts, s, g, d, f) {
        return None;
    }
    lines_value(words, d.line, f.line, g.top, x, u)
}

// ---- The power relation

// p times the exponent e, modulo m.
fn times(p: u32, e: u32, m: u32) -> u32
    requires { (e < m) × (m ≤ 2147483648) }
    ensures { result ≡ (p * e) % m }
{
    if p == 2 {
        return modular::add_mod(e, e, m);
    }
    level::add_times(0, p, e, m)
}

// p times the exponent of generator j on d, of degree 1, is y modulo m.
fn single_power(words: &[u32], d: Listed, j: u32, p: u32, y: usize, m: u32) -> bool
    requires { (8 * (d.line + j) + 8 ≤ length words.now) × (word_at words.now (d.line + j) EXP < m) × (0 < m) × (m ≤ 2147483648) }
    ensures { result ≡ true → (p * word_at words.now (d.line + j) EXP) % m ≡ y % m }
{
    let e = level::word_at(words, d.line + level::up(j), level::EXP);
    level::up(times(p, e, m)) == y % level::up(m)
}

// The representation d of the level is compatible with the level below, and the power relation of the top generator holds in its
// column 0. Sound, not complete.
pub fn rep_passes(words: &[u32], firsts: &[u32], rows: &Rows, s: Scope, g: Stage, d: Listed) -> bool
    requires { Staged s words.now firsts.now g × ((r : ℕ) × Found s.gens words.now (suc g.top) r d) }
    ensures { result ≡ true → RepFits s words.now g d × PowerHolds s words.now rows.now g d }
{
    let t = level::up(g.top);
    let at = rows::pair(t, t);
    if d.deg == 1 {
        let Some(y) = single_value(words, firsts, s, g, d, &rows[at]) else {
            return false;
        };
        return single_power(words, d, g.top, g.p, y, s.m);
    }
    if !compare::rep_fits(words, firsts, s, g, d) {
        return false;
    }
    relations::power_at(words, s, d, g.top, g.p, &rows[at], 0)
}
