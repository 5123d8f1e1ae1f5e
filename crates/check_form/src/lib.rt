// Refusal 21: whether any words are a well-formed table. The heads of the lines are walked first. In a table that is
// complete and in order the rest is asked of each representation, level by level, where it stands.
//
//   block, blocks_ok       the blocks of a representation, each as long as the degree of what it refers to
//   rep_ok, level_ok, levels_ok      what is asked of a representation beside its degree, of a level's, of all
//   heads_ok, well_formed  the heads, and the whole of 21
#![tactic(auto)]

ghost use Rattle.std.specs.Prelude.{◌≡◌, suc, ◌+◌, ◌*◌, ◌≤◌, ◌<◌, length};
ghost use Rattle.definitions.specs.Lists.{all_below};
ghost use Rattle.definitions.specs.Table.{level_at};
ghost use Rattle.level.specs.Stored.{line_in};
ghost use Rattle.seek.specs.Seek.{Whole};
ghost use Rattle.heads.specs.Walk.{heads_ok};
ghost use Rattle.check_heads.specs.Places.{orders_in, Scoped};
ghost use Rattle.check_form.specs.Form.{listed_rep, blocks_ok, Width, body, level_ok, LevelOver, Spans, LevelsBehind, FormBehind, TellsForm};

use conditions::size::Orders;
use level::Listed;
use seek::{Reps, Scope};

// How long the block from column o is, if it is one, over a level i of `low` representations, looked for near a line.
fn block(words: &[u32], s: Scope, i: u32, low: usize, near: usize, d: Listed, o: u32) -> Option<u32>
    requires { LevelOver s words.now i low × (8 * (line_in d 0 + d.deg) ≤ length words.now) × (o < d.deg) }
    ensures { Width (level_at s.gens words.now i) (listed_rep words.now d) o result }
{
    let at = level::matrix_line(d, 0) + level::up(o);
    let x = level::word_at(words, at, level::REF);
    let r = level::up(x);
    if low <= r {
        return None;
    }
    let f = seek::degree_of(words, s, i, r, near);
    if d.deg - o < f {
        return None;
    }
    if !check_lines::refs_are(words, at, f, x) {
        return None;
    }
    Some(f)
}

// The blocks of a representation are whole, from column 0 on.
fn blocks_ok(words: &[u32], s: Scope, i: u32, low: usize, near: usize, d: Listed) -> bool
    requires { LevelOver s words.now i low × (8 * (line_in d 0 + d.deg) ≤ length words.now) }
    ensures { result ≡ blocks_ok (level_at s.gens words.now i) (listed_rep words.now d) }
{
    let mut o: u32 = 0;
    // The next block begins behind this one, whose width only its reference tells.
    while o < d.deg {
        let Some(f) = block(words, s, i, low, near, d, o) else {
            return false;
        };
        o += f;
    }
    true
}

// Matrices, blocks and targets of a representation of the level above level i; they have `many` and `low`, the latter looked for
// near a line.
fn rep_ok(words: &[u32], s: Scope, i: u32, low: usize, many: usize, near: usize, d: Listed) -> bool
    requires { LevelOver s words.now i low × LevelOver s words.now (suc i) many × Spans s words.now d }
    ensures { result ≡ body s.gens s.m words.now i (listed_rep words.now d) }
{
    if !check_lines::matrices_ok(words, d, s.gens, s.m) {
        return false;
    }
    if !blocks_ok(words, s, i, low, near, d) {
        return false;
    }
    if !check_lines::refs_equal(words, d, i + 1) {
        return false;
    }
    check_lines::targets_ok(words, d, i + 1, s.gens, many)
}

// Those of every representation of the level.
fn level_ok(words: &[u32], s: Scope, i: u32, low: usize, many: usize) -> bool
    requires { LevelOver s words.now i low × LevelOver s words.now (suc i) many }
    ensures { result ≡ level_ok s.gens s.m words.now i }
{
    let near = seek::start_of(words, s, i);
    for d in Reps::of(words, s, i + 1) {
        if !rep_ok(words, s, i, low, many, near, d) {
            return false;
        }
    }
    true
}

// Those of every level, where those of the first `from` levels pass.
fn levels_ok(words: &[u32], s: Scope, from: u32) -> bool
    requires { Whole s words.now × LevelsBehind s words.now from }
    ensures { result ≡ all_below s.gens (level_ok s.gens s.m words.now) }
{
    let mut low = seek::count_of(words, s, from);
    for i in from..s.gens {
        let many = seek::count_of(words, s, i + 1);
        if !level_ok(words, s, i, low, many) {
            return false;
        }
        low = many;
    }
    true
}

// The heads of all lines are in order, which is known where `from` levels pass.
fn heads_ok(words: &[u32], orders: &Orders, s: Scope, from: u32) -> bool
    requires { Scoped s words.now × FormBehind s orders.now words.now from }
    ensures { result ≡ heads_ok s.gens words.now (orders_in orders.now) }
{
    if from != 0 {
        return true;
    }
    check_heads::heads(words, orders, s)
}

// The words are a well-formed table of a presentation with these orders of levels, where the first `from` levels pass: 21 does not
// apply.
pub fn well_formed(words: &[u32], orders: &Orders, s: Scope, from: u32) -> bool
    requires { Scoped s words.now × FormBehind s orders.now words.now from }
    ensures { TellsForm s orders.now words.now result }
{
    if !heads_ok(words, orders, s, from) {
        return false;
    }
    levels_ok(words, s, from)
}
