// How large a build of a presentation text is: 11 to 15, or the words that it wants.
//
//   measure          so for a text
#![tactic(auto)]

ghost use Rattle.definitions.specs.Answers.{Measure};
ghost use Rattle.results.specs.Numbers.{answer, counted};

use acceptance::accepted;
use conditions::size;
use results::Refusal;

// The words that a build of a presentation text wants, or its refusal.
pub fn measure(text: &[u8]) -> Result<usize, Refusal>
    ensures { Measure text.now (answer result) (counted result) }
{
    let mut p = presentation::BLANK;
    accepted(text, &mut p)?;
    Ok(size::measure(&p.primes, p.n).words)
}
