// Table text written into the caller's bytes: refusals 21 and 16.
//
//   all_small       whether every word has at most nine digits
//   fits            whether the text of the words has room
//   put_words       writes the words
//   write_table     the call
#![tactic(auto)]

ghost use Rattle.std.specs.Prelude.{◌≡◌, ◌+◌, ◌<◌, ◌≤◌, length, leb};
ghost use Rattle.definitions.specs.Text.{small};
ghost use Rattle.definitions.specs.Answers.{WriteTable};
ghost use Rattle.results.specs.Numbers.{answer, counted};
ghost use Rattle.text.specs.Writing.{Wrote};
ghost use Rattle.table_text.specs.Pieces.{pieces};

use results::Refusal;
use table_text::{LINE, NAMES, separator};

// Whether every word has at most nine digits.
fn all_small(words: &[u32]) -> bool
    ensures { result ≡ small words.now }
{
    words.iter().all(|w| *w <= 999999999)
}

// Whether so many bytes, and those of the words, are at most as many as there is room for.
fn fits(words: &[u32], first: usize, have: usize) -> bool
    requires { (first ≤ 34) × (have < 9223372036854775808) }
    ensures { result ≡ leb (first + length (pieces 0 words.now)) have }
{
    let mut total = first;
    for w in words {
        if have < total {
            return false;
        }
        total += text::width(*w) + 1;
    }
    total <= have
}

// Writes the words, each with its separator, and returns the position behind them.
fn put_words(out: &mut [u8], at: usize, words: &[u32]) -> usize
    requires { at + length (pieces 0 words.now) ≤ length out.old }
    ensures { Wrote out.old at (pieces 0 words.now) out.new result }
{
    let mut next = at;
    for (k, w) in words.iter().enumerate() {
        let behind = text::put_value(out, next, *w);
        next = text::put_byte(out, behind, separator(k));
    }
    next
}

// Writes the words as table text into the caller's bytes, and counts these; a refusal leaves the bytes as they were.
pub fn write_table(words: &[u32], out: &mut [u8]) -> Result<usize, Refusal>
    ensures { WriteTable words.now out.old (answer result) (counted result) out.new }
{
    if words.len() % LINE != 0 {
        return Err(Refusal::Lines);
    }
    if !all_small(words) {
        return Err(Refusal::Lines);
    }
    if !fits(words, NAMES, out.len()) {
        return Err(Refusal::Short);
    }
    let at = text::put_bytes(out, 0, b"level rep deg gen ref col row exp\n");
    let end = put_words(out, at, words);
    Ok(end)
}
