// All levels, one behind the other.
//
//   SPARE                          elements more than an array wants
//   level_with                     a level behind the level below, with arrays of so many notes and blocks; next_level chooses
//                                  their lengths
//   Reached, levels_to             the first levels
//   build_levels                   all of them
#![tactic(auto)]

ghost use Rattle.std.specs.Prelude.{◌≤◌, ◌<◌, length};
ghost use Rattle.clifford.specs.Accepted.{Accepted};
ghost use Rattle.definitions.specs.Presentation.{max_order};
ghost use Rattle.builder.specs.Level.{LevelAsked, LevelMade};
ghost use Rattle.levels.specs.Given.{Given, AllWritten};
ghost use Rattle.levels.specs.Climbing.{LevelsWritten};

use builder::Written;
use rows::{DEGREES, ORDER, Row, Rows};
use survey::Frame;

// Elements more of an array, so that no two lie whole pages apart.
const SPARE: usize = 16;

// Notes or blocks for 64 representations.
const OF_64: usize = 64 + SPARE;

// Notes for 512, and for 2,048.
const OF_512: usize = 512 + SPARE;

const OF_2048: usize = 2048 + SPARE;

// Notes for every level: the level below has at most half the order of representations.
const OF_ANY: usize = ORDER / 2 + SPARE;

// Blocks for every orbit: where one moves, the square of the prime is at most the order.
const OF_ORBIT: usize = DEGREES + SPARE;

// Appends the level above the one that the frame shows, with so many notes, and so many blocks for an orbit that moves, which
// has no more blocks than there are representations.
fn level_with<const NOTES: usize, const BLOCKS: usize>(
    words: &mut [u32],
    rows: &Rows,
    f: Frame,
) -> Written
    requires asked { LevelAsked f words.old rows.now × (f.reps ≤ NOTES) × (f.p ≤ f.reps → f.p ≤ BLOCKS) }
    requires lengths { (NOTES ≤ max_order) × (BLOCKS ≤ max_order) }
    ensures { LevelMade f words.old rows.now result words.new }
{
    let mut notes = [survey::BLANK; NOTES];
    let mut blocks = [orbits::BLANK; BLOCKS];
    builder::append_level(words, rows, &mut notes, &mut blocks, f)
}

// Appends that level with the smallest arrays that suffice.
fn next_level(words: &mut [u32], rows: &Rows, f: Frame) -> Written
    requires { LevelAsked f words.old rows.now }
    ensures { LevelMade f words.old rows.now result words.new }
{
    if f.reps <= 4 {
        return level_with::<4, 4>(words, rows, f);
    }
    if f.reps <= 8 {
        return level_with::<8, 8>(words, rows, f);
    }
    if f.reps <= 16 {
        return level_with::<16, 16>(words, rows, f);
    }
    if f.reps <= 32 {
        return level_with::<32, 32>(words, rows, f);
    }
    if f.reps <= 64 {
        return level_with::<OF_64, OF_64>(words, rows, f);
    }
    if f.reps <= 512 {
        return level_with::<OF_512, OF_ORBIT>(words, rows, f);
    }
    if f.reps <= 2048 {
        return level_with::<OF_2048, OF_ORBIT>(words, rows, f);
    }
    level_with::<OF_ANY, OF_ORBIT>(words, rows, f)
}

// Where the level that was written last begins and ends, and how many representations it has.
#[derive(Clone, Copy)]
struct Reached {
    base: usize,
    reps: u32,
    end: usize,
}

// Writes the first i levels of a presentation from the first word on: those below, then the next.
fn levels_to(words: &mut [u32], rows: &Rows, primes: &Row, n: u32, m: u32, i: u32) -> Reached
    requires { ((A : Accepted) × Given rows.now primes.now n m (length words.old) A) × (0 < i) × (i ≤ n) }
    ensures { LevelsWritten rows.now primes.now n m i words.old result words.new }
{
    if i == 1 {
        let reps = primes[0];
        let end = first::first_level(words, rows, n, reps, m);
        return Reached { base: 0, reps, end };
    }
    let top = i - 1;
    let b = levels_to(words, rows, primes, n, m, top);
    let f = Frame {
        m,
        top,
        gens: n,
        p: primes[top as usize],
        base: b.base,
        reps: b.reps,
        end: b.end,
    };
    let t = next_level(words, rows, f);
    Reached {
        base: b.end,
        reps: t.reps,
        end: t.end,
    }
}

// Writes the levels of a presentation from the first word on. Returns how many lines they are.
pub fn build_levels(words: &mut [u32], rows: &Rows, primes: &Row, n: u32, m: u32) -> usize
    requires { (A : Accepted) × Given rows.now primes.now n m (length words.old) A }
    ensures { AllWritten rows.now primes.now n m words.old result words.new }
{
    levels_to(words, rows, primes, n, m, n).end
}
