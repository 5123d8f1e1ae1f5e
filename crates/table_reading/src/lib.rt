// Table text read into the caller's words: refusals 16 and 20.
//
//   count_newlines  how many bytes 10 a text has
//   enough          whether so many words are room for so many lines
//   next_word       the word at a position, and its separator
//   in_form         whether lines of words stand to the end of a text
//   fill            stores them
//   read_table      the call
#![tactic(auto)]

ghost use Rattle.std.specs.Prelude.{◌≡◌, not, ◌*◌, ◌-◌, ◌≤◌, length, ltb};
ghost use Rattle.definitions.specs.Answers.{newlines, ReadTable};
ghost use Rattle.results.specs.Numbers.{answer, counted};
ghost use Rattle.table_reading.specs.Forms.{TableWordAt, FormAt, Room, Filled};

use results::Refusal;
use table_text::{LINE, NAMES, separator};

// How many bytes 10 a text has. Each byte adds 0 or 1, without a branch.
fn count_newlines(text: &[u8]) -> usize
    ensures { result ≡ newlines text.now }
{
    let mut n = 0;
    for b in text {
        n += usize::from(*b == b'\n');
    }
    n
}

// Whether so many words are room for every line but the first.
fn enough(have: usize, lines: usize) -> bool
    ensures { result ≡ not (ltb have (8 * (lines - 1))) }
{
    lines.saturating_sub(1) <= have / LINE
}

// Word k at a position, and the position behind its separator.
fn next_word(text: &[u8], at: usize, k: usize) -> Option<(u32, usize)>
    ensures { TableWordAt text.now at k result }
{
    let (v, next) = text::value(text, at)?;
    if text::byte_at(text, next) != separator(k) {
        return None;
    }
    Some((v, next + 1))
}

// Whether whole lines of words stand from a position to the end of a text. The loop goes on by what it reads.
fn in_form(text: &[u8], start: usize) -> bool
    requires { start ≤ length text.now }
    ensures { FormAt text.now start result }
{
    let mut at = start;
    let mut k: usize = 0;
    while at < text.len() {
        let Some((_, next)) = next_word(text, at, k) else {
            return false;
        };
        at = next;
        k += 1;
    }
    k % LINE == 0
}

// Stores the words that stand from a position to the end of a text, and returns how many they are. It goes on by what it reads, too.
fn fill(text: &[u8], start: usize, words: &mut [u32]) -> usize
    requires { Room text.now start (length words.old) }
    ensures { Filled text.now start words.old words.new result }
{
    let mut at = start;
    let mut k: usize = 0;
    while at < text.len() {
        let Some((v, next)) = next_word(text, at, k) else {
            return k;
        };
        words[k] = v;
        at = next;
        k += 1;
    }
    k
}

// Reads table text into the caller's words, and counts its lines; a refusal leaves the words as they were.
pub fn read_table(text: &[u8], words: &mut [u32]) -> Result<usize, Refusal>
    ensures { ReadTable text.now words.old (answer result) (counted result) words.new }
{
    if !enough(words.len(), count_newlines(text)) {
        return Err(Refusal::Short);
    }
    if !text::starts(text, 0, b"level rep deg gen ref col row exp\n") {
        return Err(Refusal::TableForm);
    }
    if !in_form(text, NAMES) {
        return Err(Refusal::TableForm);
    }
    let k = fill(text, NAMES, words);
    Ok(k / LINE)
}
