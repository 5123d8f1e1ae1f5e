// What the programs share.
//
//   fill, read_file  bytes of a reader, as many as there is room for; the start of a file
//   ANSWER           bytes of the text of an answer, at most
//   put_answer       the text of an answer
#![tactic(auto)]

ghost use Rattle.std.specs.Prelude.{◌≡◌, ◌≤◌, length, take};
ghost use Rattle.io.specs.Counts.{IsPrefixLen};
ghost use Rattle.definitions.specs.Programs.{answer_text};

use std::fs;
use std::io::Read;
use std::rt::Files;

// Reads from a file until the buffer is full or the file gives no more, and returns how many bytes came. A read that fails ends it.
fn fill<F: Read>(file: &mut F, text: &mut [u8]) -> usize
    ensures { IsPrefixLen result text.new }
{
    let mut count = 0;
    // Each read tells how far it came.
    while count < text.len() {
        let Ok(more) = file.read(&mut text[count..]) else {
            return count;
        };
        if more == 0 {
            return count;
        }
        count += more;
    }
    count
}

// Reads the start of a file, and returns how many bytes it read: 0 if the file is missing or cannot be read. A name that is not UTF-8
// names no file. The contract bounds the count. Nothing can be proved about the bytes, or about which file they come from, since no
// contract of the library says which bytes the system gives.
pub fn read_file(rt: &impl Files, name: &[u8], text: &mut [u8]) -> usize
    ensures { IsPrefixLen result text.new }
{
    let Ok(path) = str::from_utf8(name) else {
        return 0;
    };
    let Ok(file) = fs::open(rt, path) else {
        return 0;
    };
    let mut file = file;
    fill(&mut file, text)
}

// Bytes of the text of an answer, at most: a name of six, a number of ten digits, and the ends of two lines.
pub const ANSWER: usize = 18;

// Writes the line `answer` and a line with a number, and returns how many bytes these are.
pub fn put_answer(out: &mut [u8], number: u32) -> usize
    requires { 18 ≤ length out.old }
    ensures { (take result out.new ≡ answer_text number) × IsPrefixLen result out.new }
{
    let name = text::put_bytes(out, 0, b"answer\n");
    let end = text::put_value(out, name, number);
    text::put_byte(out, end, 10)
}
