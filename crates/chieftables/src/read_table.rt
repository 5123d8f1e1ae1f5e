// Table text read into the caller's words: 16, 20, or the count of lines.
ghost use Rattle.definitions.specs.Answers.{ReadTable};
ghost use Rattle.results.specs.Numbers.{answer, counted};

use results::Refusal;

// Reads table text into the caller's words, and counts its lines; a refusal leaves the words as they were.
pub fn read_table(text: &[u8], words: &mut [u32]) -> Result<usize, Refusal>
    ensures { ReadTable text.now words.old (answer result) (counted result) words.new }
{
    table_reading::read_table(text, words)
}
