// The calls on buffers of which the first part is lent, with a sum over the whole buffer, what is not lent too.
//
//   Summary          what a call answers, and the sum
//   build_sevens     a table built into words that are sevens
//   read_first       a table text read into the first of some words
//   Comparison       a summary, and whether the bytes are those of a text
//   write_sevens     words written into bytes that are sevens
//   check_parsed     words that stand in bytes, checked
#![tactic(auto)]

ghost use Rattle.std.specs.Prelude.{◌≡◌, ◌↔◌, true, length, take, replicate};
ghost use Rattle.definitions.specs.Answers.{Build, Check, ReadTable, WriteTable};
ghost use Rattle.text.specs.Reading.{StartsAt};
ghost use Rattle.results.specs.Numbers.{answer, counted};
ghost use Rattle.case_input.specs.Parsed.{parsed};
ghost use Rattle.case_calls.specs.Lent.{Lent, Summed, Compared};

use results::Refusal;

// Words of the buffer of a build: what twelve generators of prime 2 want.
const BUILD: usize = 786240;

// What a call answers, and a sum over the whole buffer.
#[derive(Clone, Copy)]
pub struct Summary {
    pub made: Result<usize, Refusal>,
    pub sum: u32,
}

// Builds the table of a text into the first words of a buffer.
fn build_first(text: &[u8], words: &mut [u32], have: u32) -> Result<usize, Refusal>
    ensures { Lent (Build text.now) have words.old (answer result) (counted result) words.new }
{
    let n = case_input::lent(have, words);
    chieftables::build::build(text, &mut words[..n])
}

// Builds the table of a text into the first of words that are sevens.
pub fn build_sevens(text: &[u8], have: u32) -> Summary
    ensures { Summed (Build text.now) have (replicate 786240 7) (answer result.made) (counted result.made) result.sum }
{
    let mut words = [7u32; BUILD];
    let made = build_first(text, &mut words, have);
    let sum = case_input::mix_words(&words);
    Summary { made, sum }
}

// Reads a table text into the first words of a buffer.
pub fn read_first(text: &[u8], words: &mut [u32], have: u32) -> Result<usize, Refusal>
    ensures { Lent (ReadTable text.now) have words.old (answer result) (counted result) words.new }
{
    let n = case_input::lent(have, words);
    chieftables::read_table::read_table(text, &mut words[..n])
}

// Writes words as table text into the first bytes of a buffer.
fn write_first(words: &[u32], out: &mut [u8], room: u32) -> Result<usize, Refusal>
    ensures { Lent (WriteTable words.now) room out.old (answer result) (counted result) out.new }
{
    let n = case_input::lent(room, out);
    chieftables::write_table::write_table(words, &mut out[..n])
}

// Whether the first bytes are those of a text, and as many.
fn is_text(bytes: &[u8], count: usize, text: &[u8]) -> bool
    ensures { (result ≡ true) ↔ ((count ≡ length text.now) × StartsAt bytes.now 0 text.now) }
{
    count == text.len() && text::starts(bytes, 0, text)
}

// A summary, and whether the counted bytes are those of a text.
#[derive(Clone, Copy)]
pub struct Comparison {
    pub made: Result<usize, Refusal>,
    pub sum: u32,
    pub same: bool,
}

// Writes words into the first of bytes that are sevens, and compares these with a text.
pub fn write_sevens(words: &[u32], room: u32, text: &[u8]) -> Comparison
    ensures { Compared (WriteTable words.now) room (replicate 4096 7) text.now (answer result.made) (counted result.made) result.sum result.same }
{
    let mut out = [7u8; 4096];
    let made = write_first(words, &mut out, room);
    let sum = case_input::mix_bytes(&out);
    let same = is_text(&out, made.unwrap_or(0), text);
    Comparison { made, sum, same }
}

// Checks the first of 16,384 words whose digits stand in bytes.
pub fn check_parsed(text: &[u8], digits: &[u8], have: u32) -> Result<(), Refusal>
    ensures { Check text.now (take have (parsed digits.now (replicate 16384 0))) (answer result) }
{
    let mut words = [0u32; 16384];
    case_input::parse(digits, &mut words);
    let n = case_input::lent(have, &words);
    chieftables::check::check(text, &words[..n])
}
