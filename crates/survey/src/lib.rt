// What is to be known of a level before the next is written: where its representations begin, the orbits of the generator
// on top, the numbers of what they give, and the constants that close each orbit.
//
//   Note, BLANK                  what is noted of a representation; a note of nothing
//   Frame                        what a level is made with
//   listed, member               a representation by its first line
//   top_target                   where the generator on top leads it
//   NextFirst, note_run, find_lines      note the first lines
//   mark_along, mark_orbit, mark_from, clear, mark_orbits      note leaders and positions
//   made, count_numbers          note the numbers
//   carry, carry_around, around  an entry along an orbit
//   closing, leading, find_shifts      note the constants
#![tactic(auto)]

ghost use Rattle.std.specs.Prelude.{◌≡◌, ◌+◌, ◌≤◌, ◌<◌, length};
ghost use Rattle.survey.specs.Notes.{firsts, leaders, positions, numbers, shifts, without_number, without_shift, Beside, Cleared};
ghost use Rattle.survey.specs.Below.{deg_of, target_of, leader_in, made_in, number_in, around_in, closing_in, leading_in, LevelStands, Located, Array, Lines};
ghost use Rattle.survey.specs.Below.{Fixed, FirstsTo, RunNoted, Orbited, MarkedTo, Marking, CarriedAt, CarriedOn};
ghost use Rattle.level.specs.Stored.{Below};
ghost use Rattle.rows.specs.Rows.{Top};

use definitions::Entry;
use level::Listed;
use rows::Row;

// What is noted of a representation: its first line; the least representation of its orbit, and its position from that on; the
// number of the first representation above it; and, at the least of an orbit, the constant that closes that.
#[derive(Clone, Copy)]
pub struct Note {
    pub first: u32,
    pub leader: u32,
    pub position: u32,
    pub number: u32,
    pub shift: u32,
}

// A note of nothing.
pub const BLANK: Note = Note {
    first: 0,
    leader: 0,
    position: 0,
    number: 0,
    shift: 0,
};

// What a level is made with: the modulus, the generator on top (from 0), how many generators there are, the prime of the
// one on top, the first line of the level below, how many representations that has, and the line behind it.
#[derive(Clone, Copy)]
pub struct Frame {
    pub m: u32,
    pub top: u32,
    pub gens: u32,
    pub p: u32,
    pub base: usize,
    pub reps: u32,
    pub end: usize,
}

// Representation r, by its first line.
pub fn listed(low: &[u32], notes: &[Note], f: Frame, r: u32) -> Listed
    requires { LevelStands f low.now × Lines f low.now (firsts notes.now) × (r < f.reps) }
    ensures { Located f low.now r result }
{
    level::representation(low, notes[r as usize].first as usize)
}

// Representation r where its degree d is known, as along an orbit.
pub fn member(low: &[u32], notes: &[Note], f: Frame, d: u32, r: u32) -> Listed
    requires { LevelStands f low.now × Lines f low.now (firsts notes.now) × (r < f.reps) × (d ≡ deg_of f low.now r) }
    ensures { Located f low.now r result }
{
    Listed {
        line: notes[r as usize].first as usize,
        deg: d,
    }
}

// Where the intertwiner of the generator on top leads representation r.
pub fn top_target(low: &[u32], notes: &[Note], f: Frame, r: u32) -> u32
    requires { LevelStands f low.now × Lines f low.now (firsts notes.now) × (r < f.reps) }
    ensures { result ≡ target_of f low.now f.top r }
{
    let d = listed(low, notes, f, r);
    level::target(low, d, f.top)
}

// How far first lines are noted: the representation behind those that have one degree, and its first line.
#[derive(Clone, Copy)]
pub struct NextFirst {
    pub rep: u32,
    pub line: usize,
}

// Notes the first lines from representation r on, which is d, as long as the degree stays: no line waits for the degree before it.
fn note_run(low: &[u32], notes: &mut [Note], f: Frame, d: Listed, r: u32) -> NextFirst
    requires { Located f low.now r d × FirstsTo f low.now notes.old r }
    ensures { RunNoted f low.now notes.old notes.new r result }
{
    let step = level::matrix_line(d, f.gens) - d.line;
    let mut line = d.line;
    for q in r..f.reps {
        if level::word_at(low, line, level::DEG) != d.deg {
            return NextFirst { rep: q, line };
        }
        notes[q as usize].first = line as u32;
        line += step;
    }
    NextFirst { rep: f.reps, line }
}

// Notes the first lines, in runs of one degree.
pub fn find_lines(low: &[u32], notes: &mut [Note], f: Frame)
    requires { LevelStands f low.now × (f.reps ≤ length notes.old) }
    ensures { Lines f low.now (firsts notes.new) × (length notes.new ≡ length notes.old) }
{
    let mut s = f.base;
    let mut r: u32 = 0;
    // A turn is a run of representations of one degree, whose length it finds.
    while r < f.reps {
        let d = level::representation(low, s);
        let e = note_run(low, notes, f, d, r);
        r = e.rep;
        s = e.line;
    }
}

// Marks the orbit of r, which moves and none of which is marked, member after member.
fn mark_along(low: &[u32], notes: &mut [Note], f: Frame, r: u32)
    requires level_stands { LevelStands f low.now × Lines f low.now (firsts notes.old) × (r < f.reps) × (leader_in f low.now r ≡ r) }
    requires moves { ¬ Fixed f low.now r }
    requires marked_to { MarkedTo f low.now (leaders notes.old) (positions notes.old) r 0 }
    ensures { Marking f low.now notes.old notes.new r f.p }
{
    let d = listed(low, notes, f, r);
    let mut q = r;
    for k in 0..f.p {
        notes[q as usize].leader = r;
        notes[q as usize].position = k;
        let e = member(low, notes, f, d.deg, q);
        q = level::target(low, e, f.top);
    }
}

// Marks the orbit of r, none of which is marked: where it does not move, r is its own leader as it is.
fn mark_orbit(low: &[u32], notes: &mut [Note], f: Frame, r: u32)
    requires level_stands { LevelStands f low.now × Lines f low.now (firsts notes.old) × (r < f.reps) × (leader_in f low.now r ≡ r) }
    requires marked_to { MarkedTo f low.now (leaders notes.old) (positions notes.old) r 0 }
    ensures { Marking f low.now notes.old notes.new r f.p }
{
    if top_target(low, notes, f, r) == r {
        notes[r as usize].position = 0;
        return;
    }
    mark_along(low, notes, f, r);
}

// Marks the orbit of r if r begins one: if no orbit before has it.
fn mark_from(low: &[u32], notes: &mut [Note], f: Frame, r: u32)
    requires level_stands { LevelStands f low.now × Lines f low.now (firsts notes.old) × (r < f.reps) }
    requires marked_to { MarkedTo f low.now (leaders notes.old) (positions notes.old) r 0 }
    ensures { Marking f low.now notes.old notes.new (r + 1) 0 }
{
    if notes[r as usize].leader == r {
        mark_orbit(low, notes, f, r);
    }
}

// Notes each representation as its own leader, which it is until the orbit is marked that has it.
fn clear(notes: &mut [Note], reps: u32)
    requires { reps ≤ length notes.old }
    ensures { Cleared reps notes.old notes.new }
{
    for k in 0..reps {
        notes[k as usize].leader = k;
    }
}

// Notes leaders and positions.
pub fn mark_orbits(low: &[u32], notes: &mut [Note], f: Frame)
    requires { LevelStands f low.now × Lines f low.now (firsts notes.old) }
    ensures { Orbited f low.now notes.new × (length notes.new ≡ length notes.old) }
{
    clear(notes, f.reps);
    for r in 0..f.reps {
        mark_from(low, notes, f, r);
    }
}

// How many representations r gives.
fn made(low: &[u32], notes: &[Note], f: Frame, r: u32) -> u32
    requires { LevelStands f low.now × Orbited f low.now notes.now × (r < f.reps) }
    ensures { result ≡ made_in f low.now r }
{
    if notes[r as usize].leader != r {
        return 0;
    }
    if top_target(low, notes, f, r) == r {
        return f.p;
    }
    1
}

// Notes the numbers: of the first representation that each gives. Returns how many all give.
pub fn count_numbers(low: &[u32], notes: &mut [Note], f: Frame) -> u32
    requires { LevelStands f low.now × Orbited f low.now notes.old }
    ensures value { (result ≡ number_in f low.now f.reps) × Beside without_number notes.old notes.new }
    ensures array { Array f low.now (numbers notes.new) (number_in f low.now) }
{
    let mut c = 0;
    for r in 0..f.reps {
        notes[r as usize].number = c;
        c += made(low, notes, f, r);
    }
    c
}

// An entry at a representation.
#[derive(Clone, Copy)]
pub struct Carried {
    pub rep: u32,
    pub x: Entry,
}

// An entry taken one step along the orbit.
fn carry(low: &[u32], notes: &[Note], f: Frame, d: u32, s: Carried) -> Carried
    requires { LevelStands f low.now × Lines f low.now (firsts notes.now) × CarriedAt f low.now d s }
    ensures { CarriedOn f low.now d s result }
{
    let e = member(low, notes, f, d, s.rep);
    Carried {
        rep: level::target(low, e, f.top),
        x: level::moved(low, e, f.top, s.x, f.m),
    }
}

// Column 0 of representation r taken around its orbit, step by step.
fn carry_around(low: &[u32], notes: &[Note], f: Frame, d: Listed, r: u32) -> Entry
    requires { Located f low.now r d × Lines f low.now (firsts notes.now) }
    ensures { (result ≡ around_in f low.now r f.p) × Below f.m (deg_of f low.now r) result }
{
    let mut s = Carried {
        rep: r,
        x: Entry { row: 0, exp: 0 },
    };
    for _ in 0..f.p {
        s = carry(low, notes, f, d.deg, s);
    }
    s.x
}

// Column 0 of representation r taken around its orbit: where that does not move, by a power of one intertwiner. A square is two
// steps, which are quicker.
fn around(low: &[u32], notes: &[Note], f: Frame, d: Listed, r: u32) -> Entry
    requires { Located f low.now r d × Lines f low.now (firsts notes.now) }
    ensures { (result ≡ around_in f low.now r f.p) × Below f.m (deg_of f low.now r) result }
{
    if f.p > 2 && level::target(low, d, f.top) == r {
        return level::moved_times(low, d, f.top, f.p, Entry { row: 0, exp: 0 }, f.m);
    }
    carry_around(low, notes, f, d, r)
}

// The constant that closes the orbit of r: an exponent of the power word u, which ends before generator n, less that of the
// intertwiners around it.
fn closing(low: &[u32], notes: &[Note], u: &Row, n: usize, f: Frame, r: u32) -> u32
    requires { LevelStands f low.now × Lines f low.now (firsts notes.now) × (r < f.reps) × Top f.top u.now n }
    ensures { (result ≡ closing_in f low.now u.now r) × (result < f.m) }
{
    let d = listed(low, notes, f, r);
    let a = around(low, notes, f, d, r);
    if n == 0 {
        return modular::sub_mod(0, a.exp, f.m);
    }
    let b = level::walked(low, d, u, n, Entry { row: 0, exp: 0 }, f.m);
    modular::sub_mod(b.exp, a.exp, f.m)
}

// This constant if r is the least of its orbit, and 0 else.
fn leading(low: &[u32], notes: &[Note], u: &Row, n: usize, f: Frame, r: u32) -> u32
    requires { LevelStands f low.now × Orbited f low.now notes.now × (r < f.reps) × Top f.top u.now n }
    ensures { (result ≡ leading_in f low.now u.now r) × (result < f.m) }
{
    if notes[r as usize].leader != r {
        return 0;
    }
    closing(low, notes, u, n, f, r)
}

// Notes these constants.
pub fn find_shifts(low: &[u32], notes: &mut [Note], u: &Row, n: usize, f: Frame)
    requires { LevelStands f low.now × Orbited f low.now notes.old × Top f.top u.now n }
    ensures array { Array f low.now (shifts notes.new) (leading_in f low.now u.now) }
    ensures beside { Beside without_shift notes.old notes.new }
{
    for r in 0..f.reps {
        notes[r as usize].shift = leading(low, notes, u, n, f, r);
    }
}
