// The heads of a table's lines, walked from the first line on: the lines are complete and in order, and the square of a
// degree is at most the order of its level. Any words are answered, and nothing is kept but the place of the walk.
//
//   Place            where a walk is
//   times            a product of two words
//   head_is, column_heads, rep_heads     the head of a line, of the lines of a column, and of those of a representation
//   size_ok          whether a level and a degree are possible, and their lines are there
//   place_ok         whether a representation stands at a place
//   begins, turned   whether the line of a place begins the next level, and the level of a place
//   onward           the place behind a representation
//   heads_behind, heads     the walk behind representations of level 1 and degree 1, and the whole walk
#![tactic(auto)]

ghost use Rattle.std.specs.Prelude.{◌≡◌, ℕ, ◌+◌, ◌*◌, ◌≤◌, ◌<◌, length};
ghost use Rattle.definitions.specs.Lists.{all_below};
ghost use Rattle.definitions.specs.Presentation.{max_generators};
ghost use Rattle.heads.specs.Walk.{matrix_heads, heads_ok};
ghost use Rattle.level.specs.Stored.{line_in};
ghost use Rattle.check_heads.specs.Places.{orders_in, Scoped, HeadTold, ColumnRoom, column_heads, starts_level};
ghost use Rattle.check_heads.specs.Places.{turned_to, behind, InsideTable, size_ok, place_ok, Opened};

use conditions::size::Orders;
use level::Listed;
use seek::Scope;

// The line, its level, and how many representations of the level stand before it.
#[derive(Clone, Copy)]
pub struct Place {
    pub line: usize,
    pub level: u32,
    pub rep: usize,
}

fn times(a: u32, b: u32) -> usize
    ensures { result ≡ a * b }
{
    level::up(a) * level::up(b)
}

// The line has column c; its level and number are what one number says, its degree and generator what another does.
fn head_is(words: &[u32], at: usize, place: usize, kind: usize, c: u32) -> bool
    requires { 8 * at + 8 ≤ length words.now }
    ensures { HeadTold words.now at place kind c result }
{
    if check_lines::two_at(words, at, level::LEVEL) != place {
        return false;
    }
    if check_lines::two_at(words, at, level::DEG) != kind {
        return false;
    }
    level::word_at(words, at, level::COL) == c
}

// The lines of column c of n generators, of the representation of degree d at a place: each stands d lines behind the one before.
fn column_heads(words: &[u32], p: Place, first: usize, d: u32, c: u32, n: u32) -> bool
    requires { (p.rep < 4294967296) × ColumnRoom words.now first d n }
    ensures { result ≡ column_heads words.now p first d c n }
{
    let place = level::up(p.level) + p.rep * check_lines::HIGH;
    let deg = level::up(d);
    let end = deg + level::up(n) * check_lines::HIGH;
    // a `step_by` over the kinds costs one instruction in twelve of the check of a large cyclic group
    let mut kind = deg;
    let mut at = first;
    while kind < end {
        kind += check_lines::HIGH;
        if !head_is(words, at, place, kind, c) {
            return false;
        }
        at += deg;
    }
    true
}

// The lines of all n generators: column after column.
fn rep_heads(words: &[u32], p: Place, d: Listed, n: u32) -> bool
    requires { (8 * line_in d n ≤ length words.now) × (0 < n) × (0 < d.deg) }
    ensures { result ≡ all_below n (λ (g : ℕ). matrix_heads words.now d.line p.level p.rep d.deg g) }
{
    if level::up(level::word_at(words, d.line, level::REP)) != p.rep {
        return false;
    }
    for c in 0..d.deg {
        if !column_heads(words, p, d.line + level::up(c), d.deg, c, n) {
            return false;
        }
    }
    true
}

// The table has the level of a place, the degree d is positive and its square within the order, and its lines are there.
fn size_ok(orders: &Orders, s: Scope, p: Place, d: u32) -> bool
    requires { (p.line < s.lines) × (8 * s.lines < 18446744073709551616) × (s.gens ≤ max_generators) }
    ensures { result ≡ size_ok s (orders_in orders.now) p d }
{
    if s.gens < p.level {
        return false;
    }
    if d == 0 {
        return false;
    }
    let i = level::up(p.level);
    if level::up(orders[i]) < times(d, d) {
        return false;
    }
    p.line + times(s.gens, d) <= s.lines
}

// The lines of a representation stand at a place.
fn place_ok(words: &[u32], orders: &Orders, s: Scope, p: Place) -> bool
    requires { Scoped s words.now × (p.line < s.lines) }
    ensures { result ≡ place_ok s.gens words.now (orders_in orders.now) p }
{
    let d = level::representation(words, p.line);
    if !size_ok(orders, s, p, d.deg) {
        return false;
    }
    rep_heads(words, p, d, s.gens)
}

// The line of a place begins the next level.
fn begins(words: &[u32], p: Place) -> bool
    requires { (8 * p.line + 8 ≤ length words.now) × (p.level ≤ max_generators) }
    ensures { result ≡ starts_level words.now p }
{
    if level::word_at(words, p.line, level::LEVEL) != p.level + 1 {
        return false;
    }
    0 < p.rep
}

// Where the line of a place begins the next level, that level.
fn turned(words: &[u32], p: Place) -> Place
    requires { (8 * p.line + 8 ≤ length words.now) × (p.level ≤ max_generators) }
    ensures { result ≡ turned_to words.now p }
{
    if begins(words, p) {
        return Place {
            line: p.line,
            level: p.level + 1,
            rep: 0,
        };
    }
    p
}

// The place behind the representation at a place.
fn onward(words: &[u32], s: Scope, p: Place) -> Place
    requires { InsideTable s.gens words.now p }
    ensures { result ≡ behind s.gens words.now p }
{
    let d = level::representation(words, p.line);
    Place {
        line: level::matrix_line(d, s.gens),
        level: p.level,
        rep: p.rep + 1,
    }
}

// The heads of all lines are those of a complete table with possible degrees, where those of the first k representations are: these
// are of level 1 and of degree 1.
pub fn heads_behind(words: &[u32], orders: &Orders, s: Scope, k: usize) -> bool
    requires { Scoped s words.now × Opened s (orders_in orders.now) words.now k }
    ensures { result ≡ heads_ok s.gens words.now (orders_in orders.now) }
{
    if words.len() % 8 != 0 {
        return false;
    }
    let mut p = Place {
        line: k * level::up(s.gens),
        level: 1,
        rep: k,
    };
    // Each place is found from the one before it.
    while p.line < s.lines {
        let t = turned(words, p);
        if !place_ok(words, orders, s, t) {
            return false;
        }
        p = onward(words, s, t);
    }
    if p.level != s.gens {
        return false;
    }
    0 < p.rep
}

// The heads of all lines are those of a complete table with possible degrees.
pub fn heads(words: &[u32], orders: &Orders, s: Scope) -> bool
    requires { Scoped s words.now }
    ensures { result ≡ heads_ok s.gens words.now (orders_in orders.now) }
{
    heads_behind(words, orders, s, 0)
}
