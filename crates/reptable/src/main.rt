// Writes the table of the presentation text in the file group.txt to the standard output: the table text, or the line
// `answer` and a line with the number of the refusal.
#![tactic(auto)]

ghost use Rattle.std.specs.Prelude.{◌≤◌, length, take};
ghost use Rattle.io.specs.Counts.{IsPrefixLen};
ghost use Rattle.definitions.specs.Answers.{build_refusals};
ghost use Rattle.definitions.specs.Programs.{lent_words, reptable_refusals, Reptable};
ghost use Rattle.results.specs.Numbers.{answer, counted};
ghost use Rattle.reptable.specs.Tabulated.{room, Tabulated};

use results::Refusal;

// Bytes of a presentation text, at most.
const TEXT: usize = 4096;

// Words that are lent to the build: those of 1,024 lines.
const WORDS: usize = 8192;

// Bytes of the text of so many lines, at most: 34 for the line of names, and for a line 80, eight values of nine digits.
const ROOM: usize = 34 + 80 * (WORDS / 8);

// Writes the text of the table that a presentation text asks for, and counts its bytes, or answers the build's refusal. Every table
// that is built finds room.
fn tabulate(text: &[u8], out: &mut [u8]) -> Result<usize, Refusal>
    requires { room ≤ length out.old }
    ensures tabulated { Tabulated (build_refusals text.now lent_words) text.now (answer result) (take (counted result) out.new) }
    ensures prefix_len { IsPrefixLen (counted result) out.new }
{
    let mut words = [0u32; WORDS];
    let lines = chieftables::build::build(text, &mut words)?;
    chieftables::write_table::write_table(&words[..8 * lines], out)
}

// Writes the text of the table that the bytes of a file ask for, of which there may be too many.
fn tabulate_file(bytes: &[u8], out: &mut [u8]) -> Result<usize, Refusal>
    requires { room ≤ length out.old }
    ensures tabulated { Tabulated (reptable_refusals bytes.now) bytes.now (answer result) (take (counted result) out.new) }
    ensures prefix_len { IsPrefixLen (counted result) out.new }
{
    if bytes.len() > TEXT {
        return Err(Refusal::PresentationForm);
    }
    tabulate(bytes, out)
}

// What the program answers, and how many bytes it prints.
#[derive(Clone, Copy)]
struct Printed {
    made: Result<(), Refusal>,
    count: usize,
}

// Writes what the program prints of the bytes of a file: the text of the table, or that of the answer of a refusal.
fn reply(bytes: &[u8], out: &mut [u8]) -> Printed
    requires { room ≤ length out.old }
    ensures reptable { Reptable bytes.now (answer result.made) (take result.count out.new) }
    ensures prefix_len { IsPrefixLen result.count out.new }
{
    match tabulate_file(bytes, out) {
        Ok(count) => Printed {
            made: Ok(()),
            count,
        },
        Err(e) => {
            let count = program::put_answer(out, e.number());
            Printed {
                made: Err(e),
                count,
            }
        }
    }
}

// Prints it.
fn print_reply(bytes: &[u8]) {
    let mut out = [0u8; ROOM];
    let made = reply(bytes, &mut out);
    io::write_all(1, &out[..made.count]);
}

// One byte more is read than a text may have, so that a longer file is seen.
fn main(rt: HostRuntime) {
    let mut text = [0u8; TEXT + 1];
    let count = program::read_file(&rt, b"group.txt", &mut text);
    print_reply(&text[..count]);
}
