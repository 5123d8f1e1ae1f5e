// The check of any table for a presentation text: the first of 11 to 15 and 21 to 26 that applies.
ghost use Rattle.definitions.specs.Answers.{Check};
ghost use Rattle.results.specs.Numbers.{answer};

use results::Refusal;

// The first refusal of the text, or of the words as its table.
pub fn check(text: &[u8], words: &[u32]) -> Result<(), Refusal>
    ensures { Check text.now words.now (answer result) }
{
    verdict::check(text, words)
}
