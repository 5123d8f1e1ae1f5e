// Where the intertwiners lead the extensions of a representation that the generator on top fixes.
//
//   Target, BLANK                where that of one generator leads; one that is not found yet
//   conjugated                   column 0 moved by a conjugate of a generator
//   root                         the constant of extension 0
//   landing                      the number of the extension to which extension 0 goes
//   find_targets                 this, and the first extension of each target, for all generators above the one on top
#![tactic(auto)]

ghost use Rattle.std.specs.Prelude.{◌≡◌, suc, ◌/◌, ◌≤◌, ◌<◌, length, get_or};
ghost use Rattle.definitions.specs.Presentation.{max_generators, max_order};
ghost use Rattle.formulas.specs.Formulas.{landing};
ghost use Rattle.level.specs.Stored.{Below, Stored};
ghost use Rattle.survey.specs.Notes.{shifts};
ghost use Rattle.survey.specs.Below.{source_in, Surveyed, Fixed};
ghost use Rattle.targets.specs.Reached.{conjugated_in, Lands, Aimed};

use definitions::Entry;
use level::Listed;
use rows::{Row, Rows};
use survey::{Frame, Note};

// Where the intertwiner of a generator leads extension 0: to the first extension of the target, by its number, and so many
// behind it.
#[derive(Clone, Copy)]
pub struct Target {
    pub start: u32,
    pub landing: u32,
}

// A target that is not found yet.
pub const BLANK: Target = Target {
    start: 0,
    landing: 0,
};

// Column 0 of d moved by j⁻¹ g j in extension 0: by the word w of the two, the part of g scaled by c, and once more by g.
fn conjugated(low: &[u32], w: &Row, d: Listed, g: u32, c: u32, m: u32) -> Entry
    requires { Stored m (suc g) low.now d × (g < max_generators) × (c < m) × (get_or w.now g 0 < max_order) }
    ensures { (result ≡ conjugated_in m g low.now d w.now c) × Below m d.deg result }
{
    let t = g as usize;
    let x = level::walked(low, d, w, t, Entry { row: 0, exp: 0 }, m);
    level::scaled_times(low, d, g, c, w[t] + 1, x, m)
}

// The constant of extension 0.
pub fn root(notes: &[Note], f: Frame, r: u32) -> u32
    requires { (r < length notes.now) × (0 < f.p) × (get_or (shifts notes.now) r 0 < f.m) }
    ensures { (result ≡ get_or (shifts notes.now) r 0 / f.p) × (result < f.m) }
{
    notes[r as usize].shift / f.p
}

// The number among the extensions of the target to which the intertwiner of generator j leads extension 0 of r.
fn landing(low: &[u32], rows: &Rows, notes: &[Note], f: Frame, d: Listed, j: u32, r: u32) -> u32
    requires { Lands f low.now rows.now notes.now r d j }
    ensures { result ≡ landing (source_in f low.now rows.now) j r }
{
    let w = rows::word(rows, j as usize, f.top as usize);
    let c = root(notes, f, r);
    let x = conjugated(low, &w, d, f.top, c, f.m);
    let y = level::moved(low, d, j, x, f.m);
    let q = level::target(low, d, j);
    let e = survey::member(low, notes, f, d.deg, q);
    let b = root(notes, f, q);
    let z = level::through(low, d, j, e, f.top, b, f.m);
    modular::sub_mod(y.exp, z, f.m) / (f.m / f.p)
}

// Fills, for each generator above the one on top, the number of the first extension of the target of r, and the number
// among them to which extension 0 goes.
pub fn find_targets(
    low: &[u32],
    rows: &Rows,
    notes: &[Note],
    targets: &mut [Target],
    f: Frame,
    r: u32,
)
    requires { Surveyed f low.now rows.now notes.now × (r < f.reps) × Fixed f low.now r × (f.gens ≤ length targets.old) }
    ensures { Aimed f low.now rows.now r targets.new }
{
    let d = survey::listed(low, notes, f, r);
    for j in f.top + 1..f.gens {
        let q = level::target(low, d, j);
        targets[j as usize] = Target {
            start: notes[q as usize].number,
            landing: landing(low, rows, notes, f, d, j, r),
        };
    }
}
