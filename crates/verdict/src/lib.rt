// The check of any table for a presentation text: the first of 11 to 15 and 21 to 26 that applies.
//
//   check_sound      the first of 21 to 26 for a sound presentation
//   check            the first of all for a text
#![tactic(auto)]

ghost use Rattle.definitions.specs.Answers.{Check};
ghost use Rattle.results.specs.Numbers.{answer};
ghost use Rattle.acceptance.specs.Accepted.{SomeSound};
ghost use Rattle.verdict.specs.Checked.{Checks};

use acceptance::accepted;
use conditions::size::measure;
use presentation::ReadPresentation;
use results::Refusal;

// The first of 21 to 26 that applies to words as a table of a sound presentation.
fn check_sound(p: &ReadPresentation, words: &[u32]) -> Result<(), Refusal>
    requires { SomeSound p.now }
    ensures { Checks p.now words.now (answer result) }
{
    let size = measure(&p.primes, p.n);
    checker::judge(words, &p.rows, &p.primes, p.n as u32, size.order)
}

// The first refusal of the text, or of the words as its table.
pub fn check(text: &[u8], words: &[u32]) -> Result<(), Refusal>
    ensures { Check text.now words.now (answer result) }
{
    let mut p = presentation::BLANK;
    accepted(text, &mut p)?;
    check_sound(&p, words)
}
