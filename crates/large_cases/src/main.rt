// Builds tables into as many words as the largest one wants, checks them, and prints a line for each.
//
// A case is a line, then a presentation text, then a form feed. The table of the text is built into words that are sevens before. What
// the build answers and counts is printed, a sum over all words, and the answer to the check of the counted lines; the line of the case
// comes last. The words take 14.7 megabytes of the stack.
//
//   INPUT, WORDS             bytes that are read, and words that are lent
//   Told                     what is printed of a text
//   check_first_lines        so many lines, checked
//   build_checked            a table, built and checked
//   answer                   a case
#![tactic(auto)]

use case_input::Input;
use results::Refusal;
use std::io::Write;

// Bytes of the standard input, at most.
const INPUT: usize = 65536;

// What fourteen generators of prime 2 want: eight words of a line, fourteen generators, and 32,766 columns.
const WORDS: usize = 3669792;

// What a build answers, a sum over all words, and the answer to the check of the counted lines.
#[derive(Clone, Copy)]
struct Told {
    made: Result<usize, Refusal>,
    sum: u32,
    checked: Result<(), Refusal>,
}

// Checks the first lines of words, or all words if there are fewer.
fn check_first_lines(text: &[u8], words: &[u32], lines: usize) -> Result<(), Refusal> {
    if lines <= words.len() / 8 {
        return chieftables::check::check(text, &words[..8 * lines]);
    }
    chieftables::check::check(text, words)
}

// Builds the table of a text into words that are sevens, and checks it.
fn build_checked(text: &[u8]) -> Told {
    let mut words = [7u32; WORDS];
    let made = chieftables::build::build(text, &mut words);
    let sum = case_input::mix_words(&words);
    let checked = check_first_lines(text, &words, made.unwrap_or(0));
    Told { made, sum, checked }
}

// A line that cannot be written is skipped, as in every program here: the next line is tried, and the status stays 0.
fn answer(rt: &HostRuntime, line: &[u8], text: &[u8]) {
    let t = build_checked(text);
    let number = results::answer(&t.made);
    let lines = t.made.unwrap_or(0);
    let sum = t.sum;
    let checked = results::answer(&t.checked);
    let _ = print!(rt; "{number} {lines} {sum} {checked} | ");
    let _ = rt.stdout().write_all(line);
}

fn main(rt: HostRuntime) {
    let mut input = [0u8; INPUT];
    let n = io::read_full(0, &mut input);
    for (line, text) in Input::new(&input[..n]) {
        answer(&rt, line, text);
    }
}
