// The extensions of a representation that the generator on top fixes, as lines behind the level below.
//
//   Origin, find_origin          what the extensions are copied from
//   power, reference             the reference of a generator in an extension
//   head                         what the lines of one generator share
//   append_matrix, append_top    one generator of an extension, other than the one on top, and that
//   append_low, append_extension      the generators up to the one on top; one extension
//   append_each, append_extensions     all of them
#![tactic(auto)]

ghost use Rattle.std.specs.Prelude.{◌≡◌, List, ℕ, ◌+◌, ◌*◌, ◌≤◌, ◌<◌};
ghost use Rattle.lines.specs.Lines.{Space, Appended};
ghost use Rattle.survey.specs.Below.{low_of, deg_of, Fixed, Sound, Surveyed};
ghost use Rattle.targets.specs.Reached.{Aimed};
ghost use Rattle.extend.specs.Extending.{origin_of, power_of, reference_of, Extends, Copies};
ghost use Rattle.extend.specs.Extending.{copy_head, copy_words, low_words, extension_words, extensions_words};

use level::Listed;
use lines::{Head, Piece};
use rows::{GENERATORS, Rows};
use survey::{Frame, Note};
use targets::Target;

// What the extensions of a representation are copied from: its number and its lines; the number and the constant of
// extension 0; and what each extension adds to the constant.
#[derive(Clone, Copy)]
pub struct Origin {
    pub rep: u32,
    pub source: Listed,
    pub number: u32,
    pub root: u32,
    pub step: u32,
}

// What the extensions of representation r are copied from.
fn find_origin(low: &[u32], notes: &[Note], f: Frame, r: u32) -> Origin
    requires { ((rows : List (List ℕ)) × Surveyed f low.now rows notes.now) × (r < f.reps) }
    ensures { result ≡ origin_of f low.now notes.now r }
{
    Origin {
        rep: r,
        source: survey::listed(low, notes, f, r),
        number: notes[r as usize].number,
        root: targets::root(notes, f, r),
        step: f.m / f.p,
    }
}

// The exponent of the generator on top in its conjugate by generator g.
fn power(rows: &Rows, f: Frame, g: u32) -> u32
    requires { ((W : List ℕ) × Sound f W rows.now) × (f.top < g) × (g < f.gens) }
    ensures { (result ≡ power_of f rows.now g) × (result ≤ f.p) }
{
    let t = f.top as usize;
    let at = rows::pair(g as usize, t);
    rows[at][t] + 1
}

// The reference of a generator g above the one on top in extension k.
fn reference(rows: &Rows, targets: &[Target], f: Frame, g: u32, k: u32) -> u32
    requires { ((W : List ℕ) × ((r : ℕ) × Aimed f W rows.now r targets.now)) × (f.top < g) × (g < f.gens) × (k < f.p) }
    ensures { result ≡ reference_of f rows.now targets.now g k }
{
    let a = power(rows, f, g);
    let t = targets[g as usize];
    t.start + (t.landing + k * a) % f.p
}

// What the lines of generator g of extension k share, with reference x.
fn head(f: Frame, o: Origin, k: u32, g: u32, x: u32) -> Head
    requires { ((W : List ℕ) × Copies f W o) × (k < f.p) × (g < f.gens) }
    ensures { result ≡ copy_head f o k g x }
{
    Head {
        level: f.top + 1,
        rep: o.number + k,
        deg: o.source.deg,
        generator: g + 1,
        refn: x,
    }
}

// Appends generator g of extension k, other than the one on top, with reference x, behind the level below, where its matrix stands.
// Returns the next line's number.
fn append_matrix(words: &mut [u32], f: Frame, o: Origin, at: usize, k: u32, g: u32, x: u32) -> usize
    requires copies { Copies f (low_of f words.old) o × (k < f.p) × (g < f.gens) × ¬ (g ≡ f.top) }
    requires space { Space f.end at (8 * o.source.deg) words.old }
    ensures { Appended words.old at (copy_words f (low_of f words.old) o k g x) words.new result }
{
    let h = head(f, o, k, g, x);
    lines::append_copy(words, f.end, at, h, level::matrix_line(o.source, g))
}

// Appends the generator on top of extension k, which alone has a constant. Returns the next line's number.
fn append_top(words: &mut [u32], f: Frame, o: Origin, at: usize, k: u32) -> usize
    requires copies { Copies f (low_of f words.old) o × (k < f.p) }
    requires space { Space f.end at (8 * o.source.deg) words.old }
    ensures { Appended words.old at (copy_words f (low_of f words.old) o k f.top o.rep) words.new result }
{
    let top = f.top;
    let h = head(f, o, k, top, o.rep);
    let c = o.root + k * o.step;
    let b = Piece {
        src: level::matrix_line(o.source, top),
        deg: o.source.deg,
        col: 0,
        row: 0,
        by: c,
    };
    lines::append_block(words, f.end, at, h, b, f.m)
}

// Appends those generators of extension k that are not above the one on top: the reference of each is the number of what is extended.
fn append_low(words: &mut [u32], f: Frame, o: Origin, at: usize, k: u32) -> usize
    requires copies { Copies f (low_of f words.old) o × (k < f.p) }
    requires space { Space f.end at (8 * ((f.top + 1) * o.source.deg)) words.old }
    ensures { Appended words.old at (low_words f (low_of f words.old) o k) words.new result }
{
    let mut pos = at;
    for g in 0..f.top {
        pos = append_matrix(words, f, o, pos, k, g, o.rep);
    }
    append_top(words, f, o, pos, k)
}

// Appends extension k, generator after generator.
fn append_extension(
    words: &mut [u32],
    rows: &Rows,
    targets: &[Target],
    f: Frame,
    o: Origin,
    at: usize,
    k: u32,
) -> usize
    requires extends { Extends f (low_of f words.old) rows.now targets.now o × (k < f.p) }
    requires space { Space f.end at (8 * (f.gens * o.source.deg)) words.old }
    ensures { Appended words.old at (extension_words f (low_of f words.old) rows.now o.rep k) words.new result }
{
    let mut pos = append_low(words, f, o, at, k);
    for g in f.top + 1..f.gens {
        let x = reference(rows, targets, f, g, k);
        pos = append_matrix(words, f, o, pos, k, g, x);
    }
    pos
}

// Appends the extensions, one behind the other.
fn append_each(
    words: &mut [u32],
    rows: &Rows,
    targets: &[Target],
    f: Frame,
    o: Origin,
    at: usize,
) -> usize
    requires extends { Extends f (low_of f words.old) rows.now targets.now o }
    requires space { Space f.end at (f.p * (8 * (f.gens * o.source.deg))) words.old }
    ensures { Appended words.old at (extensions_words f (low_of f words.old) rows.now o.rep) words.new result }
{
    let mut pos = at;
    for k in 0..f.p {
        pos = append_extension(words, rows, targets, f, o, pos, k);
    }
    pos
}

// Appends the extensions of r, which the generator on top fixes, behind the level below. Returns the next line's number.
pub fn append_extensions(
    words: &mut [u32],
    rows: &Rows,
    notes: &[Note],
    f: Frame,
    at: usize,
    r: u32,
) -> usize
    requires surveyed { Surveyed f (low_of f words.old) rows.now notes.now × (r < f.reps) × Fixed f (low_of f words.old) r }
    requires space { Space f.end at (f.p * (8 * (f.gens * deg_of f (low_of f words.old) r))) words.old }
    ensures { Appended words.old at (extensions_words f (low_of f words.old) rows.now r) words.new result }
{
    let n = 8 * f.end;
    let mut targets = [targets::BLANK; GENERATORS];
    targets::find_targets(&words[..n], rows, notes, &mut targets, f, r);
    let o = find_origin(&words[..n], notes, f, r);
    append_each(words, rows, &targets, f, o, at)
}
