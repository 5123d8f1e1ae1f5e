// The representation induced from an orbit of the generator on top, as lines behind the level below.
//
//   find_induction                     what is induced from an orbit, whose blocks it lists
//   find_still                         a block of a generator's matrix that stays
//   block_to, block_by, block_reference, find_cell      one that may move: where the generator takes it, by which constant,
//                                      and its reference
//   append_cell, append_below, append_cells      the lines of a block, and of the blocks of a generator
//   find_scalars, induced_target       scalars and reference of a generator above the one on top
//   append_generator, append_induction       a generator, and the representation
#![tactic(auto)]

ghost use Rattle.std.specs.Prelude.{◌≡◌, List, [], cond, ℕ, ◌*◌, ◌≤◌, ◌<◌, leb, length};
ghost use Rattle.formulas.specs.Formulas.{block_to};
ghost use Rattle.lines.specs.Lines.{Appended, Space};
ghost use Rattle.survey.specs.Below.{low_of, deg_of, matrix_of, source_in, LevelStands, Leads, Orbited, Surveyed};
ghost use Rattle.orbits.specs.Blocks.{members, scalars, member_of, OrbitArray, Inducing, BlockScalars};
ghost use Rattle.induce.specs.Inducing.{induction_of, number_above, Writing, Moving, factor_in, still_in, cell_in, CellFits};
ghost use Rattle.induce.specs.Inducing.{cell_words, still_words, CellsWritten, induced_words, induction_words};

use lines::{Head, Piece};
use orbits::Block;
use rows::Rows;
use survey::{Frame, Note};

// What is induced from an orbit: the least representation of that, the number, and the degree of a block.
#[derive(Clone, Copy)]
pub struct Induction {
    pub leader: u32,
    pub number: u32,
    pub deg: u32,
}

// Lists the orbit of r, and finds what is induced from it.
fn find_induction(low: &[u32], notes: &[Note], blocks: &mut [Block], f: Frame, r: u32) -> Induction
    requires { ((rows : List (List ℕ)) × Surveyed f low.now rows notes.now) × (r < f.reps) × (f.p ≤ length blocks.old) }
    ensures { (result ≡ induction_of f low.now notes.now r) × OrbitArray f low.now (members blocks.new) r }
{
    orbits::list_orbit(low, notes, blocks, f, r);
    let d = survey::listed(low, notes, f, r);
    Induction {
        leader: r,
        number: notes[r as usize].number,
        deg: d.deg,
    }
}

// A block of a generator's matrix: the line at which the matrix of its representation begins, the blocks from which and to
// which the generator takes it, the power of the root that it is multiplied by, and its reference.
#[derive(Clone, Copy)]
pub struct Cell {
    pub src: usize,
    pub from: u32,
    pub to: u32,
    pub by: u32,
    pub refn: u32,
}

// Block b of a generator that leaves it where it is.
fn find_still(
    low: &[u32],
    notes: &[Note],
    blocks: &[Block],
    f: Frame,
    i: Induction,
    g: u32,
    b: u32,
) -> Cell
    requires { Writing f low.now notes.now blocks.now i g × (b < f.p) }
    ensures { (result ≡ still_in f low.now i g b) × CellFits f low.now i result }
{
    let q = blocks[b as usize].member;
    let e = survey::member(low, notes, f, i.deg, q);
    Cell {
        src: level::matrix_line(e, g),
        from: b,
        to: b,
        by: 0,
        refn: q,
    }
}

// The block to which generator g, not below the one on top, takes block b of the orbit of r: the matrix of g there begins at
// line src.
fn block_to(low: &[u32], notes: &[Note], f: Frame, r: u32, g: u32, b: u32, src: usize) -> u32
    requires level_stands { LevelStands f low.now × Orbited f low.now notes.now × (r < f.reps) × (f.top ≤ g) × (g < f.gens) × (b < f.p) }
    requires src_value { src ≡ matrix_of f low.now g (member_of f low.now r b) }
    ensures { (result ≡ block_to (source_in f low.now []) r g b) × (result < f.p) }
{
    if g == f.top {
        return if b + 1 < f.p { b + 1 } else { 0 };
    }
    let q = level::word_at(low, src, level::REF);
    notes[q as usize].position
}

// The constant of a block: the scalars are those of a generator above the one on top.
fn block_by(notes: &[Note], blocks: &[Block], f: Frame, i: Induction, g: u32, b: u32) -> u32
    requires { ((W : List ℕ) × Moving f W notes.now blocks.now i g) × (b < f.p) }
    ensures { (result ≡ factor_in f notes.now blocks.now i.leader g b) × (result < f.m) }
{
    if g > f.top {
        return blocks[b as usize].scalar;
    }
    if b + 1 < f.p {
        0
    } else {
        notes[i.leader as usize].shift
    }
}

// The reference of a block: the representation q below, or x for the generators above the one on top.
fn block_reference(f: Frame, g: u32, q: u32, x: u32) -> u32
    ensures { result ≡ cond (leb g f.top) q x }
{
    if g <= f.top { q } else { x }
}

// Block b of generator g, not below the one on top; x is the reference of the generators above that.
fn find_cell(
    low: &[u32],
    notes: &[Note],
    blocks: &[Block],
    f: Frame,
    i: Induction,
    g: u32,
    b: u32,
    x: u32,
) -> Cell
    requires { Moving f low.now notes.now blocks.now i g × (b < f.p) }
    ensures { (result ≡ cell_in f low.now notes.now blocks.now i g x b) × CellFits f low.now i result }
{
    let c = find_still(low, notes, blocks, f, i, g, b);
    Cell {
        src: c.src,
        from: b,
        to: block_to(low, notes, f, i.leader, g, b, c.src),
        by: block_by(notes, blocks, f, i, g, b),
        refn: block_reference(f, g, c.refn, x),
    }
}

// Appends a block of generator g; where its degree is 1, no products are formed. Returns the next line's number.
fn append_cell(words: &mut [u32], f: Frame, at: usize, i: Induction, g: u32, q: Cell) -> usize
    requires { CellFits f (low_of f words.old) i q × (g < f.gens) × Space f.end at (8 * i.deg) words.old }
    ensures { Appended words.old at (cell_words f (low_of f words.old) i g q) words.new result }
{
    let d = i.deg;
    let h = Head {
        level: f.top + 1,
        rep: i.number,
        deg: f.p * d,
        generator: g + 1,
        refn: q.refn,
    };
    if d == 1 {
        let b = Piece {
            src: q.src,
            deg: d,
            col: q.from,
            row: q.to,
            by: q.by,
        };
        return lines::append_block(words, f.end, at, h, b, f.m);
    }
    let b = Piece {
        src: q.src,
        deg: d,
        col: q.from * d,
        row: q.to * d,
        by: q.by,
    };
    lines::append_block(words, f.end, at, h, b, f.m)
}

// Appends the blocks of generator g, below the one on top: each stays.
fn append_below(
    words: &mut [u32],
    notes: &[Note],
    blocks: &[Block],
    f: Frame,
    at: usize,
    i: Induction,
    g: u32,
) -> usize
    requires { Writing f (low_of f words.old) notes.now blocks.now i g × Space f.end at (f.p * (8 * i.deg)) words.old }
    ensures { Appended words.old at (still_words f (low_of f words.old) i g) words.new result }
{
    let n = 8 * f.end;
    let mut pos = at;
    for b in 0..f.p {
        let q = find_still(&words[..n], notes, blocks, f, i, g, b);
        pos = append_cell(words, f, pos, i, g, q);
    }
    pos
}

// Appends the blocks of generator g, not below the one on top: they may move. x is the reference of the generators above that.
fn append_cells(
    words: &mut [u32],
    notes: &[Note],
    blocks: &[Block],
    f: Frame,
    at: usize,
    i: Induction,
    g: u32,
    x: u32,
) -> usize
    requires { Moving f (low_of f words.old) notes.now blocks.now i g × Space f.end at (f.p * (8 * i.deg)) words.old }
    ensures { CellsWritten f words.old notes.now blocks.now i g x at words.new result }
{
    let n = 8 * f.end;
    let mut pos = at;
    for b in 0..f.p {
        let q = find_cell(&words[..n], notes, blocks, f, i, g, b, x);
        pos = append_cell(words, f, pos, i, g, q);
    }
    pos
}

// For a generator above the one on top, lists its scalars.
fn find_scalars(
    low: &[u32],
    rows: &Rows,
    notes: &[Note],
    blocks: &mut [Block],
    f: Frame,
    r: u32,
    g: u32,
)
    requires { Inducing f low.now rows.now notes.now blocks.old r × (g < f.gens) }
    ensures inducing { Inducing f low.now rows.now notes.now blocks.new r }
    ensures block_scalars { f.top < g → BlockScalars f low.now rows.now (scalars blocks.new) g r }
{
    if g > f.top {
        orbits::list_scalars(low, rows, notes, blocks, f, g, r);
    }
}

// The number of the representation to which a generator above the one on top takes the one induced from r.
fn induced_target(low: &[u32], notes: &[Note], f: Frame, r: u32, g: u32) -> u32
    requires { ((rows : List (List ℕ)) × Surveyed f low.now rows notes.now) × (r < f.reps) × (g < f.gens) }
    ensures { f.top < g → result ≡ number_above f low.now notes.now g r }
{
    if g <= f.top {
        return 0;
    }
    let d = survey::listed(low, notes, f, r);
    let q = level::target(low, d, g);
    let l = notes[q as usize].leader;
    notes[l as usize].number
}

// Appends generator g of the induced representation.
fn append_generator(
    words: &mut [u32],
    rows: &Rows,
    notes: &[Note],
    blocks: &mut [Block],
    f: Frame,
    at: usize,
    i: Induction,
    g: u32,
) -> usize
    requires inducing { Inducing f (low_of f words.old) rows.now notes.now blocks.old i.leader × (g < f.gens) }
    requires deg_value { (i.deg ≡ deg_of f (low_of f words.old) i.leader) × Space f.end at (f.p * (8 * i.deg)) words.old }
    ensures appended { Appended words.old at (induced_words f (low_of f words.old) rows.now i g) words.new result }
    ensures inducing_2 { Inducing f (low_of f words.old) rows.now notes.now blocks.new i.leader }
{
    if g < f.top {
        return append_below(words, notes, blocks, f, at, i, g);
    }
    let n = 8 * f.end;
    let x = induced_target(&words[..n], notes, f, i.leader, g);
    find_scalars(&words[..n], rows, notes, blocks, f, i.leader, g);
    append_cells(words, notes, blocks, f, at, i, g, x)
}

// Appends the representation induced from the orbit of r, the least of it. Returns the next line's number.
pub fn append_induction(
    words: &mut [u32],
    rows: &Rows,
    notes: &[Note],
    blocks: &mut [Block],
    f: Frame,
    at: usize,
    r: u32,
) -> usize
    requires surveyed { Surveyed f (low_of f words.old) rows.now notes.now × Leads f (low_of f words.old) r × (f.p ≤ length blocks.old) }
    requires space { Space f.end at (8 * (f.gens * (f.p * deg_of f (low_of f words.old) r))) words.old }
    ensures { Appended words.old at (induction_words f (low_of f words.old) rows.now r) words.new result }
{
    let n = 8 * f.end;
    let i = find_induction(&words[..n], notes, blocks, f, r);
    let mut pos = at;
    for g in 0..f.gens {
        pos = append_generator(words, rows, notes, blocks, f, pos, i, g);
    }
    pos
}
