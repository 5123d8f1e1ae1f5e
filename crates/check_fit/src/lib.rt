// The fast acceptance test: how many of the first levels of a table are compatible, each with the level below. By design it is sound
// but not complete: the levels that it counts pass, and nothing is stated about the others. If it counts all levels, the table passes.
// `checker::judge` is exact: it tests the levels that are not counted one condition at a time.
//
//   upper_levels_fit                     the levels above the first
//   character_lines                      the first lines of level 1, in a list
//   levels_fit, lent_levels              all levels, with a list and marks that are lent
//   levels_with, fitting_levels          with room for orders up to so many, which is chosen
#![tactic(auto)]

ghost use Rattle.std.specs.Prelude.{◌≡◌, ◌*◌, ◌≤◌, ◌<◌, length};
ghost use Rattle.definitions.specs.Presentation.{max_generators, max_order, max_modulus};
ghost use Rattle.compare.specs.Staged.{max_lines};
ghost use Rattle.check_heads.specs.Places.{Scoped};
ghost use Rattle.check_fit.specs.Fit.{CharacterLines, Started, LevelOne, FitUpTo, FittingLevels};

use claims::Mark;
use compare::Stage;
use conditions::size::Orders;
use rows::{ORDER, Row, Rows};
use seek::Scope;

// The first lines of two levels one above the other, of the largest order.
const FIRSTS: usize = 2 * ORDER;

// The lines that are compared at most: every table that passes has fewer.
const MAX_LINES: usize = 16777216;

// How many of the first levels fit, where level 1 does and its first lines stand at the start of the list.
fn upper_levels_fit(
    words: &[u32],
    rows: &Rows,
    primes: &Row,
    orders: &Orders,
    s: Scope,
    firsts: &mut [u32],
    marks: &mut [Mark],
    slots: &mut [bool],
) -> u32
    requires { LevelOne s words.now rows.now primes.now orders.now firsts.old }
    ensures fit_up_to { FitUpTo s words.now rows.now primes.now orders.now result }
    ensures firsts_len_unchanged { length firsts.new ≡ length firsts.old }
{
    let gens = s.gens;
    let reach = commuting::reaches(rows, level::up(gens));
    let mut low: usize = 0;
    let mut below = level::up(primes[0]);
    for i in 1..gens {
        let high = low + below;
        let k = level::up(i);
        let Some(above) = check_level::first_lines(words, s, i + 1, orders[k + 1], firsts, high)
        else {
            return i;
        };
        let g = Stage {
            top: i,
            p: primes[k],
            low,
            below,
            high,
            above,
        };
        if !check_level::level_fits(words, firsts, rows, &reach, s, g, marks, slots) {
            return i;
        }
        low = high;
        below = above;
    }
    gens
}

// Writes the first lines of the representations of level 1 into a list.
fn character_lines(firsts: &mut [u32], many: usize, n: u32)
    requires { (many ≤ length firsts.old) × (many * n ≤ max_lines) × (n ≤ max_generators) }
    ensures { CharacterLines n many firsts.new × (length firsts.new ≡ length firsts.old) }
{
    let mut l: u32 = 0;
    for first in &mut firsts[..many] {
        *first = l;
        l += n;
    }
}

// How many of the first levels fit, with a list for the first lines of all representations, where level 1 does.
fn levels_fit(
    words: &[u32],
    rows: &Rows,
    primes: &Row,
    orders: &Orders,
    s: Scope,
    firsts: &mut [u32],
    marks: &mut [Mark],
    slots: &mut [bool],
) -> u32
    requires { Started s words.now rows.now primes.now orders.now }
    ensures { FitUpTo s words.now rows.now primes.now orders.now result }
{
    let many = level::up(primes[0]);
    if firsts.len() < many {
        return 1;
    }
    character_lines(firsts, many, s.gens);
    upper_levels_fit(words, rows, primes, orders, s, firsts, marks, slots)
}

// How many of the first levels of a table fit, with a list for first lines and with marks that are lent.
fn lent_levels(
    words: &[u32],
    rows: &Rows,
    primes: &Row,
    orders: &Orders,
    s: Scope,
    firsts: &mut [u32],
    marks: &mut [Mark],
    slots: &mut [bool],
) -> u32
    requires { Scoped s words.now × (0 < s.m) × (s.m ≤ max_modulus) }
    ensures { FittingLevels s rows.now primes.now orders.now words.now result }
{
    let n = level::up(s.gens);
    if orders[n] != s.m {
        return 0;
    }
    if s.lines > MAX_LINES {
        return 0;
    }
    if !check_first::level_one(words, rows, orders, s, primes[0], slots) {
        return 0;
    }
    if s.gens == 1 {
        return 1;
    }
    levels_fit(words, rows, primes, orders, s, firsts, marks, slots)
}

// How many of them fit, with room for so many first lines, marks and slots: no level has more representations or slots than there are
// elements, and the order of a level is at least twice that of the level below.
fn levels_with<const FIRSTS: usize, const MARKS: usize>(
    words: &[u32],
    rows: &Rows,
    primes: &Row,
    orders: &Orders,
    s: Scope,
) -> u32
    requires { Scoped s words.now × (0 < s.m) × (s.m ≤ max_modulus) × (FIRSTS ≤ 2 * max_order) × (MARKS ≤ max_order) }
    ensures { FittingLevels s rows.now primes.now orders.now words.now result }
{
    let mut firsts = [0u32; FIRSTS];
    let mut marks = [Mark::Free; MARKS];
    let mut slots = [false; MARKS];
    lent_levels(
        words,
        rows,
        primes,
        orders,
        s,
        &mut firsts,
        &mut marks,
        &mut slots,
    )
}

// Counts the first levels of a table that are compatible, each with the level below, with exponents modulo the order. These levels
// pass, and if there is any, the heads of all lines are in order. Sound, not complete.
pub fn fitting_levels(words: &[u32], rows: &Rows, primes: &Row, orders: &Orders, s: Scope) -> u32
    requires { Scoped s words.now × (0 < s.m) × (s.m ≤ max_modulus) }
    ensures { FittingLevels s rows.now primes.now orders.now words.now result }
{
    match s.m {
        0..=16 => levels_with::<32, 16>(words, rows, primes, orders, s),
        17..=64 => levels_with::<128, 64>(words, rows, primes, orders, s),
        65..=256 => levels_with::<512, 256>(words, rows, primes, orders, s),
        257..=512 => levels_with::<1024, 512>(words, rows, primes, orders, s),
        513..=1024 => levels_with::<2048, 1024>(words, rows, primes, orders, s),
        1025..=4096 => levels_with::<8192, 4096>(words, rows, primes, orders, s),
        _ => levels_with::<FIRSTS, ORDER>(words, rows, primes, orders, s),
    }
}
