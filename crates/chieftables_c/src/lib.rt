// The public calls, exported for C and Rust as a static library. Each is the call of the same name in `chieftables`, whose result is
// handed back as a number, or as a number with a count or a yes or no.
//
//   Counted, Verdict                                                      an answer and a count; an answer and a yes or no
//   chieftables_accept, chieftables_measure, chieftables_commutative      a presentation text
//   chieftables_build, chieftables_check                                  its table
//   chieftables_read_table, chieftables_write_table                       table text
#![tactic(auto)]

ghost use Rattle.std.specs.Prelude.{◌≡◌};
ghost use Rattle.definitions.specs.Answers.{Accept, Measure, Commutative, Build, Check, ReadTable, WriteTable};
ghost use Rattle.results.specs.Numbers.{answer, counted, yes};

use chieftables::{accept, build, check, commutative, measure, read_table, write_table};
use results::Refusal;

// The number of a refusal and 0, or 0 and the count of words, lines or bytes: a struct of C, which has no results.
#[repr(C)]
#[derive(Clone, Copy)]
pub struct Counted {
    pub answer: u32,
    pub count: usize,
}

// The number of a refusal and 0, or 0 and 1 for yes, 0 for no: a struct of C.
#[repr(C)]
#[derive(Clone, Copy)]
pub struct Verdict {
    pub answer: u32,
    pub yes: u32,
}

// The number of a result, and what it counts.
impl From<Result<usize, Refusal>> for Counted {
    ghost from_gives = { λ r c. (c.answer ≡ answer r) × (c.count ≡ counted r) };

    fn from(r: Result<usize, Refusal>) -> Counted {
        match r {
            Ok(count) => Counted { answer: 0, count },
            Err(e) => Counted {
                answer: e.number(),
                count: 0,
            },
        }
    }
}

// The number of a result, and its yes or no.
impl From<Result<bool, Refusal>> for Verdict {
    ghost from_gives = { λ r v. (v.answer ≡ answer r) × (v.yes ≡ yes r) };

    fn from(r: Result<bool, Refusal>) -> Verdict {
        match r {
            Ok(yes) => Verdict {
                answer: 0,
                yes: u32::from(yes),
            },
            Err(e) => Verdict {
                answer: e.number(),
                yes: 0,
            },
        }
    }
}

// `accept`, for C and Rust.
#[unsafe(no_mangle)]
pub extern "C" fn chieftables_accept(text: &[u8]) -> u32
    ensures { Accept text.now result }
{
    results::answer(&accept::accept(text))
}

// `measure`, for C and Rust.
#[unsafe(no_mangle)]
pub extern "C" fn chieftables_measure(text: &[u8]) -> Counted
    ensures { Measure text.now result.answer result.count }
{
    Counted::from(measure::measure(text))
}

// `commutative`, for C and Rust.
#[unsafe(no_mangle)]
pub extern "C" fn chieftables_commutative(text: &[u8]) -> Verdict
    ensures { Commutative text.now result.answer result.yes }
{
    Verdict::from(commutative::commutative(text))
}

// `build`, for C and Rust.
#[unsafe(no_mangle)]
pub extern "C" fn chieftables_build(text: &[u8], words: &mut [u32]) -> Counted
    ensures { Build text.now words.old result.answer result.count words.new }
{
    Counted::from(build::build(text, words))
}

// `read_table`, for C and Rust.
#[unsafe(no_mangle)]
pub extern "C" fn chieftables_read_table(text: &[u8], words: &mut [u32]) -> Counted
    ensures { ReadTable text.now words.old result.answer result.count words.new }
{
    Counted::from(read_table::read_table(text, words))
}

// `write_table`, for C and Rust.
#[unsafe(no_mangle)]
pub extern "C" fn chieftables_write_table(words: &[u32], out: &mut [u8]) -> Counted
    ensures { WriteTable words.now out.old result.answer result.count out.new }
{
    Counted::from(write_table::write_table(words, out))
}

// `check`, for C and Rust.
#[unsafe(no_mangle)]
pub extern "C" fn chieftables_check(text: &[u8], words: &[u32]) -> u32
    ensures { Check text.now words.now result }
{
    results::answer(&check::check(text, words))
}
