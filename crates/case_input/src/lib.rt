// Cases of a program's standard input, words in them, and sums over buffers.
//
//   find, behind               the first position of a byte; the position after one
//   Case, case_at              where the text of a case begins and ends, and where the next case begins
//   Input                      the cases of an input, one after the other
//   lent                       how much of a buffer is lent
//   mix_words, mix_bytes       a sum over a whole buffer
//   parse                      words in bytes
#![tactic(auto)]

ghost use Rattle.std.specs.Prelude.{◌≡◌, cond, suc, ◌<◌, ◌≤◌, length};
ghost use Rattle.std.specs.Iterator.{at_most};
ghost use Rattle.case_input.specs.Cases.{found, after, CaseAt};
ghost use Rattle.case_input.specs.Mixed.{mixed, mixed_to};
ghost use Rattle.case_input.specs.Part.{Part};
ghost use Rattle.case_input.specs.Parsed.{is_digit, ends, with_digit, with_byte, parsed};

// Returns the first position of a byte from `start` on, or the end.
pub fn find(s: &[u8], start: usize, byte: u8) -> usize
    requires { start ≤ length s.now }
    ensures value { result ≡ found s.now start byte }
    ensures lower_bound { (start ≤ result) × (result ≤ length s.now) }
{
    for at in start..s.len() {
        if s[at] == byte {
            return at;
        }
    }
    s.len()
}

// Returns the position after a position, or the end.
pub fn behind(s: &[u8], at: usize) -> usize
    requires { at ≤ length s.now }
    ensures value { result ≡ after s.now at }
    ensures lower_bound { (at ≤ result) × (result ≤ length s.now) }
{
    if at < s.len() {
        return at + 1;
    }
    at
}

// Where the text of a case begins and ends, and where the next case begins.
#[derive(Clone, Copy)]
pub struct Case {
    pub text: usize,
    pub end: usize,
    pub next: usize,
}

// Finds the parts of the case at a position: a line of at least one byte, a text, and a form feed.
pub fn case_at(input: &[u8], at: usize) -> Case
    requires { at < length input.now }
    ensures case_at { CaseAt input.now at result }
    ensures at_lt_text { (at < result.text) × (result.text ≤ result.end) × (result.end ≤ result.next) × (result.next ≤ length input.now) }
{
    let line = find(input, at + 1, b'\n');
    let text = behind(input, line);
    let end = find(input, text, 12);
    let next = behind(input, end);
    Case { text, end, next }
}

// The cases of an input, one after the other: the line and the text of each.
#[derive(Drop)]
pub struct Input<'a> {
    rest: &'a [u8],
}

impl<'a> Input<'a> {
    // All of them.
    pub fn new(input: &'a [u8]) -> Self
        ensures { result.rest.now ≡ input.now }
    {
        Input { rest: input }
    }
}

impl<'a> Iterator for Input<'a> {
    type Item = (&'a [u8], &'a [u8]);

    ghost use Rattle.case_input.specs.Walk.{GivesCase};

    ghost next_gives = { GivesCase };

    ghost remaining = { λ a. at_most (length a.rest.now) };

    fn next(&mut self) -> Option<(&'a [u8], &'a [u8])> {
        let rest = self.rest;
        if rest.is_empty() {
            return None;
        }
        let c = case_at(rest, 0);
        self.rest = &rest[c.next..];
        Some((&rest[..c.text], &rest[c.text..c.end]))
    }
}

// The number, or how many elements a buffer has if that is less.
pub fn lent<T>(a: u32, buffer: &[T]) -> usize
    ensures { Part a (length buffer.now) result }
{
    buffer.len().min(a as usize)
}

// A sum, with one more number.
fn mix(sum: u32, more: u32) -> u32
    ensures { result ≡ mixed sum more }
{
    ((u64::from(sum) * 31 + u64::from(more)) % 4294967291) as u32
}

// A sum over all of them.
pub fn mix_words(words: &[u32]) -> u32
    ensures { result ≡ mixed_to words.now (length words.now) }
{
    let mut sum: u32 = 0;
    for w in words {
        sum = mix(sum, *w);
    }
    sum
}

// The same of bytes: a sum over elements of any type would have to say which number each is.
pub fn mix_bytes(bytes: &[u8]) -> u32
    ensures { result ≡ mixed_to bytes.now (length bytes.now) }
{
    let mut sum: u32 = 0;
    for b in bytes {
        sum = mix(sum, u32::from(*b));
    }
    sum
}

// A word with one more decimal digit.
fn grown(word: u32, digit: u8) -> u32
    ensures { result ≡ with_digit word digit }
{
    ((u64::from(word) * 10 + u64::from(digit) % 16) % 4294967296) as u32
}

fn is_digit(b: u8) -> bool
    ensures { result ≡ is_digit b }
{
    b.is_ascii_digit()
}

// The number of the word behind a byte: the next, if the byte ends word k.
fn word_behind(k: usize, b: u8) -> usize
    requires { k < 18446744073709551615 }
    ensures { result ≡ cond (ends b) (suc k) k }
{
    match b {
        b' ' | b'\n' => k + 1,
        _ => k,
    }
}

// Adds a digit to word k, if it is one and there is that word.
fn add_byte(words: &mut [u32], k: usize, b: u8)
    ensures { words.new ≡ with_byte words.old k b }
{
    if !is_digit(b) {
        return;
    }
    if k < words.len() {
        words[k] = grown(words[k], b);
    }
}

// Adds the digits of words, each with a space or a line's end behind it, to words that are zeros.
pub fn parse(s: &[u8], words: &mut [u32])
    ensures { words.new ≡ parsed s.now words.old }
{
    let mut k: usize = 0;
    for b in s {
        add_byte(words, k, *b);
        k = word_behind(k, *b);
    }
}
