// The line that is printed for a case of the public calls.
//
// A case is a line, then a text, then a form feed. The line begins with the kind of the case; numbers and a title follow.
//   accept        the text is a presentation, and is answered
//   measure       the text is a presentation, and is measured
//   commutative   the text is a presentation, and is asked for its yes or no
//   build W       its table is built into the first W of 786,240 words, as many as twelve generators of prime 2 want
//   read W B      the text is a table, and is read into the first W of 512 words; if it is in the form, its lines are
//                 written back into the first B of 4,096 bytes
//   write W B     the text is at most 512 words, each with a space or a line's end behind it; the first W of them are
//                 written into the first B of 4,096 bytes
//   check W       the text is a presentation, a vertical tab, and at most 16,384 words as above; the first W of them are checked
//
// For each call its answer is printed, of one that measures its count, of one that is asked for a yes or no 1 or 0, and of one that
// fills a buffer its count and a sum over the whole buffer, what is not lent too; words and bytes are sevens before the call. Behind
// a text that is written back stands whether it is the same. The line of the case comes last.
//
//   print, report_count, report_same      numbers and a word of the line
//   write, write_back               words written, and a text that is written back
//   accept_case, measure_case, commutative_case, build_case, read_case, write_case, check_case     a case of each kind
//   lent_call, call                 a case of any kind, first of those with a buffer
//   answer, answer_at               a case, and that at a position
#![tactic(auto)]

ghost use Rattle.std.specs.Prelude.{◌≡◌, ◌<◌, ◌≤◌, length};
ghost use Rattle.case_input.specs.Cases.{case_next};

use results::Refusal;

// Prints a number and a space. What is printed here is not answered for: a case that is answered cannot fail (`answer_at`), and
// std's printing answers a result.
fn print(number: u64) {
    io::print_decimal(1, number);
    io::write_all(1, b" ");
}

// The number of a refusal and 0, or 0 and a count.
fn report_count(made: Result<usize, Refusal>) {
    print(u64::from(results::answer(&made)));
    print(made.unwrap_or(0) as u64);
}

fn report_same(same: bool) {
    if same {
        io::write_all(1, b"same ");
    } else {
        io::write_all(1, b"other ");
    }
}

// Writes words into so many bytes, and tells whether these are the text.
fn write(words: &[u32], room: u32, text: &[u8]) -> bool {
    let a = case_calls::write_sevens(words, room, text);
    report_count(a.made);
    print(u64::from(a.sum));
    a.same
}

// Writes so many lines back.
fn write_back(words: &[u32], lines: usize, room: u32, text: &[u8]) {
    if lines <= words.len() / 8 {
        report_same(write(&words[..8 * lines], room, text));
    }
}

fn accept_case(text: &[u8]) {
    print(u64::from(results::answer(&chieftables::accept::accept(text))));
}

fn measure_case(text: &[u8]) {
    report_count(chieftables::measure::measure(text));
}

fn commutative_case(text: &[u8]) {
    report_count(chieftables::commutative::commutative(text).map(usize::from));
}

fn build_case(text: &[u8], have: u32) {
    let a = case_calls::build_sevens(text, have);
    report_count(a.made);
    print(u64::from(a.sum));
}

fn read_case(text: &[u8], have: u32, room: u32) {
    let mut words = [7u32; 512];
    let made = case_calls::read_first(text, &mut words, have);
    report_count(made);
    print(u64::from(case_input::mix_words(&words)));
    if let Ok(lines) = made {
        write_back(&words, lines, room, text);
    }
}

fn write_case(text: &[u8], have: u32, room: u32) {
    let mut words = [0u32; 512];
    case_input::parse(text, &mut words);
    let n = case_input::lent(have, &words);
    write(&words[..n], room, text);
}

fn check_case(text: &[u8], have: u32) {
    let end = case_input::find(text, 0, 11);
    let start = case_input::behind(text, end);
    let checked = case_calls::check_parsed(&text[..end], &text[start..], have);
    print(u64::from(results::answer(&checked)));
}

// The call with a buffer that the kind of a case names.
fn lent_call(line: &[u8], text: &[u8], have: u32, room: u32) {
    if line.starts_with(b"build ") {
        build_case(text, have);
    } else if line.starts_with(b"read ") {
        read_case(text, have, room);
    } else if line.starts_with(b"write ") {
        write_case(text, have, room);
    } else if line.starts_with(b"check ") {
        check_case(text, have);
    }
}

// The call that the kind of a case names. A table of functions would give each the same arguments.
fn call(line: &[u8], text: &[u8], have: u32, room: u32) {
    if line.starts_with(b"accept ") {
        accept_case(text);
    } else if line.starts_with(b"measure ") {
        measure_case(text);
    } else if line.starts_with(b"commutative ") {
        commutative_case(text);
    } else {
        lent_call(line, text, have, room);
    }
}

fn answer(line: &[u8], text: &[u8]) {
    let mut numbers = [0u32; 3];
    case_input::parse(line, &mut numbers);
    call(line, text, numbers[1], numbers[2]);
    io::write_all(1, b"| ");
    io::write_all(1, line);
}

// Answers the case at a position, and returns where the next case begins.
pub fn answer_at(input: &[u8], at: usize) -> usize
    requires { at < length input.now }
    ensures value { result ≡ case_next input.now at }
    ensures lower_bound { (at < result) × (result ≤ length input.now) }
{
    let c = case_input::case_at(input, at);
    answer(&input[at..c.text], &input[c.text..c.end]);
    c.next
}
