// Whether a presentation text is accepted, or the first of the refusals 11 to 15.
ghost use Rattle.definitions.specs.Answers.{Accept};
ghost use Rattle.results.specs.Numbers.{answer};

use results::Refusal;

// What a presentation text is refused with, if it is.
pub fn accept(text: &[u8]) -> Result<(), Refusal>
    ensures { Accept text.now (answer result) }
{
    let mut p = presentation::BLANK;
    acceptance::accepted(text, &mut p)
}
