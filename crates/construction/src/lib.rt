// The table of a presentation text, built into the caller's words: 11 to 16, or the count of lines.
//
//   build_sound      the table of a sound presentation, or 16
//   build            so for a text
#![tactic(auto)]

ghost use Rattle.definitions.specs.Answers.{Build};
ghost use Rattle.results.specs.Numbers.{answer, counted};
ghost use Rattle.acceptance.specs.Accepted.{SomeSound};
ghost use Rattle.construction.specs.Sized.{Sized};

use acceptance::accepted;
use conditions::size::measure;
use presentation::ReadPresentation;
use results::Refusal;

// Builds the table of a sound presentation if the words are as many as a build wants, and counts its lines.
fn build_sound(p: &ReadPresentation, words: &mut [u32]) -> Result<usize, Refusal>
    requires { SomeSound p.now }
    ensures { Sized p.now words.old (answer result) (counted result) words.new }
{
    let size = measure(&p.primes, p.n);
    if words.len() < size.words {
        return Err(Refusal::Short);
    }
    let lines = levels::build_levels(words, &p.rows, &p.primes, p.n as u32, size.order);
    Ok(lines)
}

// Builds the table that a text asks for, and counts its lines; a refusal leaves the words as they were.
pub fn build(text: &[u8], words: &mut [u32]) -> Result<usize, Refusal>
    ensures { Build text.now words.old (answer result) (counted result) words.new }
{
    let mut p = presentation::BLANK;
    accepted(text, &mut p)?;
    build_sound(&p, words)
}
