// A level behind the level below, with notes and blocks that are lent: first what is noted of the level below, then the representations
// above each of its representations.
//
//   survey_level     notes what the next level is made with
//   append_above     the representations above one
//   append_all       those above all
//   Written          what append_level returns
//   append_level     surveys a level and appends the next
#![tactic(auto)]

ghost use Rattle.std.specs.Prelude.{◌≡◌, ◌*◌, ◌≤◌, ◌<◌, length};
ghost use Rattle.text.specs.Writing.{Wrote};
ghost use Rattle.lines.specs.Lines.{Space};
ghost use Rattle.survey.specs.Below.{low_of, number_in, Sound, Surveyed};
ghost use Rattle.builder.specs.Above.{above_in, next_words};
ghost use Rattle.builder.specs.Level.{BlocksLent, LevelAsked, LevelMade};

use orbits::Block;
use rows::Rows;
use survey::{Frame, Note};

// Notes what the next level is made with. Returns how many representations the next has.
fn survey_level(low: &[u32], rows: &Rows, notes: &mut [Note], f: Frame) -> u32
    requires { Sound f low.now rows.now × (f.reps ≤ length notes.old) }
    ensures value { result ≡ number_in f low.now f.reps }
    ensures surveyed { Surveyed f low.now rows.now notes.new }
{
    survey::find_lines(low, notes, f);
    survey::mark_orbits(low, notes, f);
    let x = survey::count_numbers(low, notes, f);
    let t = f.top as usize;
    let u = rows::word(rows, t, t);
    let n = rows::top(t, &u);
    survey::find_shifts(low, notes, &u, n, f);
    x
}

// Appends the representations above representation r of the level below. Returns the next line's number.
fn append_above(
    words: &mut [u32],
    rows: &Rows,
    notes: &[Note],
    blocks: &mut [Block],
    f: Frame,
    at: usize,
    r: u32,
) -> usize
    requires surveyed { Surveyed f (low_of f words.old) rows.now notes.now × (r < f.reps) × BlocksLent f blocks.old }
    requires space { Space f.end at (length (above_in f (low_of f words.old) rows.now r)) words.old }
    ensures { Wrote words.old (8 * at) (above_in f (low_of f words.old) rows.now r) words.new (8 * result) }
{
    if notes[r as usize].leader != r {
        return at;
    }
    let n = 8 * f.end;
    if survey::top_target(&words[..n], notes, f, r) == r {
        return extend::append_extensions(words, rows, notes, f, at, r);
    }
    induce::append_induction(words, rows, notes, blocks, f, at, r)
}

// Appends the representations above all of them.
fn append_all(
    words: &mut [u32],
    rows: &Rows,
    notes: &[Note],
    blocks: &mut [Block],
    f: Frame,
) -> usize
    requires surveyed { Surveyed f (low_of f words.old) rows.now notes.now × BlocksLent f blocks.old }
    requires space { Space f.end f.end (length (next_words f (low_of f words.old) rows.now)) words.old }
    ensures { Wrote words.old (8 * f.end) (next_words f (low_of f words.old) rows.now) words.new (8 * result) }
{
    let mut pos = f.end;
    for r in 0..f.reps {
        pos = append_above(words, rows, notes, blocks, f, pos, r);
    }
    pos
}

// A written level: the line behind it, and how many representations it has.
#[derive(Clone, Copy)]
pub struct Written {
    pub end: usize,
    pub reps: u32,
}

// Appends the level above the one that the frame shows, with room for what is noted of its representations, and for the
// blocks of an orbit.
pub fn append_level(
    words: &mut [u32],
    rows: &Rows,
    notes: &mut [Note],
    blocks: &mut [Block],
    f: Frame,
) -> Written
    requires { LevelAsked f words.old rows.now × (f.reps ≤ length notes.old) × BlocksLent f blocks.old }
    ensures { LevelMade f words.old rows.now result words.new }
{
    let n = 8 * f.end;
    let reps = survey_level(&words[..n], rows, notes, f);
    let end = append_all(words, rows, notes, blocks, f);
    Written { end, reps }
}
