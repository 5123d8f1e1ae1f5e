// A representation compared with those of the level below, line by line: each block of it is the matrix to which it refers, moved
// to the rows of a block and scaled by a power of the root. No matrix product is formed. The tests are part of the fast acceptance
// test, and by design sound but not complete: `true` implies the condition, `false` implies nothing. `checker::judge` is exact.
//
//   Stage, Stretch, Shift              a level over the level below; a block; what moves a matrix to a block
//   line_shifted, lines_shifted      lines that are other lines, shifted
//   line_same, lines_same            lines that are other lines, but for their references
//   rep_at                           a representation by its place in a list of first lines
//   lower_fits                       the generators below the top, on a block
//   block_row, generator_fits        a generator that takes a block to a block
//   led_to, upper_fits               the generators above the top, on a block
//   block_fits                       all generators, on a block
//   width, proper, rep_fits           all blocks of a representation
#![tactic(auto)]

ghost use Rattle.std.specs.Prelude.{◌≡◌, true, IfSome, ◌+◌, ◌*◌, ◌/◌, ◌≤◌, ◌<◌, length, get_or};
ghost use Rattle.level.specs.Stored.{entry_in, Holds, listed_in};
ghost use Rattle.compare.specs.Shifted.{LineShifted, Shifted, LineSame, LinesSame};
ghost use Rattle.compare.specs.Staged.{Staged};
ghost use Rattle.compare.specs.Blocks.{Present, Based, Lower, TakesBlock, Upper, Uppers, BlockFits, Wide, Proper, RepFits};

use level::Listed;
use seek::Scope;

// A level and the level below: the generator on top and its prime; where the first lines of the representations of the level
// below, and of the level itself, stand in a list, and how many there are.
#[derive(Clone, Copy)]
pub struct Stage {
    pub top: u32,
    pub p: u32,
    pub low: usize,
    pub below: usize,
    pub high: usize,
    pub above: usize,
}

// A block of a representation: its first column, the number to which it refers, and that representation of the level below.
#[derive(Clone, Copy)]
pub struct Stretch {
    pub start: u32,
    pub refn: u32,
    pub part: Listed,
}

// What moves a matrix to a block: the reference of the columns, and what is added to rows and to exponents.
#[derive(Clone, Copy)]
pub struct Shift {
    pub refn: u32,
    pub row: u32,
    pub exp: u32,
}

// ---- Lines

// The line `at` is the line src, shifted.
fn line_shifted(words: &[u32], at: usize, src: usize, t: Shift, m: u32) -> bool
    requires at_in_bounds { (8 * at + 8 ≤ length words.now) × (8 * src + 8 ≤ length words.now) }
    requires src_bound { ((entry_in words.now src).exp < m) × (t.exp < m) × (m ≤ 2147483648) × (t.row + (entry_in words.now src).row < 4294967296) }
    ensures { result ≡ true → LineShifted m words.now at src t }
{
    if level::word_at(words, at, level::REF) != t.refn {
        return false;
    }
    let x = level::entry_at(words, src);
    let y = level::entry_at(words, at);
    if y.row != t.row + x.row {
        return false;
    }
    y.exp == modular::add_mod(x.exp, t.exp, m)
}

// The d lines from `at` on are those from src on, shifted.
fn lines_shifted(words: &[u32], at: usize, src: usize, d: u32, t: Shift, m: u32) -> bool
    requires { (8 * (at + d) ≤ length words.now) × Holds m words.now src d × (t.exp < m) × (t.row + d < 4294967296) }
    ensures { result ≡ true → Shifted m words.now at src d t }
{
    for c in 0..d {
        let k = level::up(c);
        if !line_shifted(words, at + k, src + k, t, m) {
            return false;
        }
    }
    true
}

// The line `at` refers to x, and has row and exponent of the line src. Sound, not complete.
pub fn line_same(words: &[u32], at: usize, src: usize, x: u32) -> bool
    requires { (8 * at + 8 ≤ length words.now) × (8 * src + 8 ≤ length words.now) }
    ensures { result ≡ true → LineSame words.now at src x }
{
    if level::word_at(words, at, level::REF) != x {
        return false;
    }
    check_lines::two_at(words, at, level::ROW) == check_lines::two_at(words, src, level::ROW)
}

// The n lines from `at` on refer to x, and have row and exponent of those from src on.
pub fn lines_same(words: &[u32], at: usize, src: usize, n: u32, x: u32) -> bool
    requires { (8 * (at + n) ≤ length words.now) × (8 * (src + n) ≤ length words.now) }
    ensures { result ≡ true → LinesSame words.now at src n x }
{
    for k in 0..n {
        let c = level::up(k);
        if !line_same(words, at + c, src + c, x) {
            return false;
        }
    }
    true
}

// ---- Representations by number

// The representation whose first line stands at a place of a list.
pub fn rep_at(words: &[u32], firsts: &[u32], at: usize) -> Listed
    requires { (at < length firsts.now) × (8 * get_or firsts.now at 0 + 8 ≤ length words.now) }
    ensures { result ≡ listed_in words.now (get_or firsts.now at 0) }
{
    level::representation(words, level::up(firsts[at]))
}

// ---- One block

// Each generator below the top acts on the block as on what it refers to; where the degree is 1, line by line.
fn lower_fits(words: &[u32], s: Scope, top: u32, d: Listed, b: Stretch) -> bool
    requires { Based s words.now d b × (top < s.gens) }
    ensures { result ≡ true → Lower s words.now d b top }
{
    let f = b.part;
    if d.deg == 1 {
        return lines_same(words, d.line, f.line, top, b.refn);
    }
    for g in 0..top {
        let at = level::matrix_line(d, g) + level::up(b.start);
        let t = Shift {
            refn: b.refn,
            row: b.start,
            exp: 0,
        };
        if !lines_shifted(words, at, level::matrix_line(f, g), f.deg, t, s.m) {
            return false;
        }
    }
    true
}

// The first row of the block of width w in which a row lies, among rows below deg.
fn block_row(row: u32, w: u32, deg: u32) -> u32
    requires { (0 < w) × (row < deg) }
    ensures { result ≡ row / w * w }
{
    if w == deg {
        return 0;
    }
    row / w * w
}

// Generator g takes the block of d to a block of e, of the same degree, as it takes what the block refers to, up to a power of
// the root; its columns refer to x.
fn generator_fits(words: &[u32], s: Scope, d: Listed, e: Listed, b: Stretch, g: u32, x: u32) -> bool
    requires { Based s words.now d b × Present s words.now e × (e.deg ≡ d.deg) × (g < s.gens) }
    ensures { result ≡ true → TakesBlock s words.now d e b g x }
{
    let f = b.part;
    let at = level::matrix_line(d, g) + level::up(b.start);
    let src = level::matrix_line(f, g);
    let y = level::entry_at(words, at);
    if d.deg <= y.row {
        return false;
    }
    if s.m <= y.exp {
        return false;
    }
    let row = block_row(y.row, f.deg, d.deg);
    if level::word_at(words, e.line + level::up(row), level::REF)
        != level::word_at(words, src, level::REF)
    {
        return false;
    }
    let exp = modular::sub_mod(y.exp, level::word_at(words, src, level::EXP), s.m);
    lines_shifted(words, at, src, f.deg, Shift { refn: x, row, exp }, s.m)
}

// Generator j, above the top, does so; it leads d to a representation of the same degree, with blocks of the same width.
fn led_to(words: &[u32], firsts: &[u32], s: Scope, g: Stage, d: Listed, b: Stretch, j: u32) -> bool
    requires { Staged s words.now firsts.now g × Based s words.now d b × (j < s.gens) }
    ensures { result ≡ true → Upper s words.now g d b j }
{
    let x = level::word_at(words, level::matrix_line(d, j), level::REF);
    let r = level::up(x);
    if g.above <= r {
        return false;
    }
    let e = rep_at(words, firsts, g.high + r);
    if e.deg != d.deg {
        return false;
    }
    let y = level::up(level::word_at(words, e.line, level::REF));
    if g.below <= y {
        return false;
    }
    let f = rep_at(words, firsts, g.low + y);
    let part = b.part;
    if f.deg != part.deg {
        return false;
    }
    generator_fits(words, s, d, e, b, j, x)
}

// So do all generators above the top.
fn upper_fits(words: &[u32], firsts: &[u32], s: Scope, g: Stage, d: Listed, b: Stretch) -> bool
    requires { Staged s words.now firsts.now g × Based s words.now d b }
    ensures { result ≡ true → Uppers s words.now g d b }
{
    let gens = s.gens;
    for j in g.top + 1..gens {
        if !led_to(words, firsts, s, g, d, b, j) {
            return false;
        }
    }
    true
}

// The block of d from column o on is of width w, and every generator takes it to a block as it takes what the block refers to.
fn block_fits(words: &[u32], firsts: &[u32], s: Scope, g: Stage, d: Listed, o: u32, w: u32) -> bool
    requires { Staged s words.now firsts.now g × Present s words.now d × (0 < w) × (o + w ≤ d.deg) }
    ensures { result ≡ true → BlockFits s words.now g d o w }
{
    let x = level::word_at(words, d.line + level::up(o), level::REF);
    let r = level::up(x);
    if g.below <= r {
        return false;
    }
    let part = rep_at(words, firsts, g.low + r);
    if part.deg != w {
        return false;
    }
    let b = Stretch {
        start: o,
        refn: x,
        part,
    };
    if !lower_fits(words, s, g.top, d, b) {
        return false;
    }
    if !generator_fits(words, s, d, d, b, g.top, x) {
        return false;
    }
    upper_fits(words, firsts, s, g, d, b)
}

// ---- One representation

// The width of the blocks of d, where it is one block, or p blocks of which the generator on top moves the first.
fn width(words: &[u32], firsts: &[u32], s: Scope, g: Stage, d: Listed) -> Option<u32>
    requires { Staged s words.now firsts.now g × Present s words.now d }
    ensures { IfSome result (λ w. Wide s words.now g d w) }
{
    let x = level::word_at(words, d.line, level::REF);
    let r = level::up(x);
    if g.below <= r {
        return None;
    }
    let f = rep_at(words, firsts, g.low + r);
    if f.deg == d.deg {
        return Some(f.deg);
    }
    if level::up(g.p) * level::up(f.deg) != level::up(d.deg) {
        return None;
    }
    if level::word_at(words, level::matrix_line(f, g.top), level::REF) == x {
        return None;
    }
    Some(f.deg)
}

// The matrices of d are matrices, where it is not one block of width w: one block is compared with matrices.
fn proper(words: &[u32], s: Scope, d: Listed, w: u32) -> bool
    requires { Present s words.now d }
    ensures { result ≡ true → Proper s words.now d w }
{
    if d.deg == w {
        return true;
    }
    check_lines::matrices_ok(words, d, s.gens, s.m)
}

// Each block of d, a representation of the level, is compatible with the level below. Sound, not complete.
pub fn rep_fits(words: &[u32], firsts: &[u32], s: Scope, g: Stage, d: Listed) -> bool
    requires { Staged s words.now firsts.now g × Present s words.now d }
    ensures { result ≡ true → RepFits s words.now g d }
{
    let Some(w) = width(words, firsts, s, g, d) else {
        return false;
    };
    if !proper(words, s, d, w) {
        return false;
    }
    let deg = d.deg;
    for o in (0..deg).step_by(level::up(w)) {
        if !block_fits(words, firsts, s, g, d, o, w) {
            return false;
        }
    }
    true
}
