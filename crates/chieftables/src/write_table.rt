// The caller's words written as table text into the caller's bytes: 21, 16, or the count of bytes.
ghost use Rattle.definitions.specs.Answers.{WriteTable};
ghost use Rattle.results.specs.Numbers.{answer, counted};

use results::Refusal;

// Writes words as table text into the caller's bytes, and counts these; a refusal leaves the bytes as they were.
pub fn write_table(words: &[u32], out: &mut [u8]) -> Result<usize, Refusal>
    ensures { WriteTable words.now out.old (answer result) (counted result) out.new }
{
    table_writing::write_table(words, out)
}
