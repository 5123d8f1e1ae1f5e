// The table of a presentation text, built into the caller's words: 11 to 16, or the count of lines.
ghost use Rattle.definitions.specs.Answers.{Build};
ghost use Rattle.results.specs.Numbers.{answer, counted};

use results::Refusal;

// Builds the table that a text asks for, and counts its lines; a refusal leaves the words as they were.
pub fn build(text: &[u8], words: &mut [u32]) -> Result<usize, Refusal>
    ensures { Build text.now words.old (answer result) (counted result) words.new }
{
    construction::build(text, words)
}
