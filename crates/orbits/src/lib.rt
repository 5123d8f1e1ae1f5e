// The blocks of an orbit of the generator on top: how that generator moves them, and the scalars of the generators above it.
//
//   Block, BLANK                 what is listed of a block; one of which nothing is
//   list_orbit                   lists the representations of the blocks
//   of_block                     the representation of a block, by its first line
//   cycle, cycle_times           the generator on top of the induced representation on an entry in a block
//   conjugate, left              one side of an intertwiner's equation at a block
//   constant, right              the other
//   next_scalar, list_scalars    lists the scalars, from block to block
#![tactic(auto)]

ghost use Rattle.std.specs.Prelude.{◌≡◌, List, ℕ, ◌≤◌, ◌<◌, length, get_or};
ghost use Rattle.definitions.specs.Lists.{iter};
ghost use Rattle.survey.specs.Notes.{firsts};
ghost use Rattle.survey.specs.Below.{LevelStands, Located, Lines, Surveyed};
ghost use Rattle.orbits.specs.Blocks.{members, scalars, member_of, OrbitArray, Inducing, Listing, BlockScalars};
ghost use Rattle.orbits.specs.Sides.{moved_of, Lies, EntryIs, cycle_in, conjugate_in, left_in, constant_in, right_in, NextScalar};

use definitions::Entry;
use level::Listed;
use rows::{Row, Rows};
use survey::{Frame, Note};

// What is listed of a block: its representation, and its scalar for a generator.
#[derive(Clone, Copy)]
pub struct Block {
    pub member: u32,
    pub scalar: u32,
}

// A block of which nothing is listed.
pub const BLANK: Block = Block {
    member: 0,
    scalar: 0,
};

// Lists the orbit of r.
pub fn list_orbit(low: &[u32], notes: &[Note], blocks: &mut [Block], f: Frame, r: u32)
    requires { LevelStands f low.now × Lines f low.now (firsts notes.now) × (r < f.reps) × (f.p ≤ length blocks.old) }
    ensures { OrbitArray f low.now (members blocks.new) r }
{
    let d = survey::listed(low, notes, f, r);
    let mut q = r;
    for k in 0..f.p {
        blocks[k as usize].member = q;
        let e = survey::member(low, notes, f, d.deg, q);
        q = level::target(low, e, f.top);
    }
}

// The representation of block b of the orbit of r.
fn of_block(low: &[u32], notes: &[Note], blocks: &[Block], f: Frame, r: u32, b: u32) -> Listed
    requires { Listing f low.now notes.now blocks.now r × (b < f.p) }
    ensures { Located f low.now (member_of f low.now r b) result }
{
    survey::listed(low, notes, f, blocks[b as usize].member)
}

// An entry in a block of an orbit.
#[derive(Clone, Copy)]
pub struct BlockEntry {
    pub block: u32,
    pub x: Entry,
}

// The generator on top of the induced representation on an entry in a block; c closes the orbit.
fn cycle(
    low: &[u32],
    notes: &[Note],
    blocks: &[Block],
    f: Frame,
    c: u32,
    r: u32,
    s: BlockEntry,
) -> BlockEntry
    requires { Listing f low.now notes.now blocks.now r × (c < f.m) × Lies f low.now r s }
    ensures { EntryIs f low.now r (cycle_in f low.now c r (moved_of s)) result }
{
    let b = s.block;
    let e = of_block(low, notes, blocks, f, r, b);
    let y = level::moved(low, e, f.top, s.x, f.m);
    if b + 1 < f.p {
        return BlockEntry { block: b + 1, x: y };
    }
    BlockEntry {
        block: 0,
        x: Entry {
            row: y.row,
            exp: modular::add_mod(y.exp, c, f.m),
        },
    }
}

// The generator on top of the induced representation, k times on an entry in a block.
fn cycle_times(
    low: &[u32],
    notes: &[Note],
    blocks: &[Block],
    f: Frame,
    c: u32,
    r: u32,
    k: u32,
    s: BlockEntry,
) -> BlockEntry
    requires { Listing f low.now notes.now blocks.now r × (c < f.m) × Lies f low.now r s }
    ensures { EntryIs f low.now r (iter (cycle_in f low.now c r) k (moved_of s)) result }
{
    let mut t = s;
    for _ in 0..k {
        t = cycle(low, notes, blocks, f, c, r, t);
    }
    t
}

// Column 0 of block b moved by j⁻¹ g j, g the generator on top: by the word w of the two, and once more by g.
fn conjugate(
    low: &[u32],
    notes: &[Note],
    blocks: &[Block],
    w: &Row,
    f: Frame,
    c: u32,
    r: u32,
    b: u32,
) -> BlockEntry
    requires { Listing f low.now notes.now blocks.now r × (b < f.p) × (c < f.m) × (get_or w.now f.top 0 < f.p) }
    ensures { EntryIs f low.now r (conjugate_in f low.now c w.now r b) result }
{
    let e = of_block(low, notes, blocks, f, r, b);
    let t = f.top as usize;
    let x = level::walked(low, e, w, t, Entry { row: 0, exp: 0 }, f.m);
    let s = BlockEntry { block: b, x };
    cycle_times(low, notes, blocks, f, c, r, w[t] + 1, s)
}

// The exponent of an entry in a block moved by the intertwiner of generator j there.
fn left(
    low: &[u32],
    notes: &[Note],
    blocks: &[Block],
    f: Frame,
    j: u32,
    r: u32,
    s: BlockEntry,
) -> u32
    requires { Listing f low.now notes.now blocks.now r × (j < f.gens) × Lies f low.now r s }
    ensures { (result ≡ left_in f low.now j r (moved_of s)) × (result < f.m) }
{
    let e = of_block(low, notes, blocks, f, r, s.block);
    let y = level::moved(low, e, j, s.x, f.m);
    y.exp
}

// The constant of the generator on top behind representation q of an orbit: 0, and at the end of the orbit what closes it.
fn constant(notes: &[Note], f: Frame, q: u32) -> u32
    requires { ((W : List ℕ) × (rows : List (List ℕ)) × Surveyed f W rows notes.now) × (q < f.reps) }
    ensures { (result ≡ constant_in f notes.now q) × (result < f.m) }
{
    let n = notes[q as usize];
    if n.position + 1 < f.p {
        return 0;
    }
    notes[n.leader as usize].shift
}

// The exponent of column 0 of block b moved by the intertwiner of generator j, and then by the generator on top.
fn right(low: &[u32], notes: &[Note], blocks: &[Block], f: Frame, j: u32, r: u32, b: u32) -> u32
    requires { Listing f low.now notes.now blocks.now r × (f.top < j) × (j < f.gens) × (b < f.p) }
    ensures { (result ≡ right_in f low.now notes.now j r b) × (result < f.m) }
{
    let d = of_block(low, notes, blocks, f, r, b);
    let q = level::target(low, d, j);
    let e = survey::member(low, notes, f, d.deg, q);
    let c = constant(notes, f, q);
    level::through(low, d, j, e, f.top, c, f.m)
}

// A block, and its scalar.
#[derive(Clone, Copy)]
pub struct BlockScalar {
    pub block: u32,
    pub exp: u32,
}

// The block behind s along the generator on top, and its scalar.
fn next_scalar(
    low: &[u32],
    rows: &Rows,
    notes: &[Note],
    blocks: &[Block],
    f: Frame,
    j: u32,
    r: u32,
    s: BlockScalar,
) -> BlockScalar
    requires { Inducing f low.now rows.now notes.now blocks.now r × (f.top < j) × (j < f.gens) × (s.block < f.p) × (s.exp < f.m) }
    ensures { NextScalar f low.now rows.now j r s result }
{
    let w = rows::word(rows, j as usize, f.top as usize);
    let c = notes[r as usize].shift;
    let a = conjugate(low, notes, blocks, &w, f, c, r, s.block);
    let l = left(low, notes, blocks, f, j, r, a);
    let y = right(low, notes, blocks, f, j, r, s.block);
    let e = modular::add_mod(s.exp, y, f.m);
    BlockScalar {
        block: a.block,
        exp: modular::sub_mod(e, l, f.m),
    }
}

// Lists the scalars of the blocks for generator j, from block 0 along the generator on top.
pub fn list_scalars(
    low: &[u32],
    rows: &Rows,
    notes: &[Note],
    blocks: &mut [Block],
    f: Frame,
    j: u32,
    r: u32,
)
    requires { Inducing f low.now rows.now notes.now blocks.old r × (f.top < j) × (j < f.gens) }
    ensures inducing { Inducing f low.now rows.now notes.now blocks.new r }
    ensures block_scalars { BlockScalars f low.now rows.now (scalars blocks.new) j r }
{
    let mut s = BlockScalar { block: 0, exp: 0 };
    blocks[0].scalar = 0;
    for k in 1..f.p {
        // Step k leads to block s.block, which need not be block k.
        s = next_scalar(low, rows, notes, blocks, f, j, r, s);
        blocks[s.block as usize].scalar = s.exp;
    }
}
