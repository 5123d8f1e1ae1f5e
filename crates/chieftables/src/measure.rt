// How large a build of a presentation text is: 11 to 15, or the words that it wants.
ghost use Rattle.definitions.specs.Answers.{Measure};
ghost use Rattle.results.specs.Numbers.{answer, counted};

use results::Refusal;

// The words that a build of a presentation text wants, or its refusal.
pub fn measure(text: &[u8]) -> Result<usize, Refusal>
    ensures { Measure text.now (answer result) (counted result) }
{
    measurement::measure(text)
}
