// Answers whether the table text in the file table.txt passes for the presentation text in the file group.txt: the line
// `answer` and a line with 0 or the number of the refusal.
#![tactic(auto)]

ghost use Rattle.definitions.specs.Answers.{Accept};
ghost use Rattle.definitions.specs.Programs.{Repcheck};
ghost use Rattle.results.specs.Numbers.{answer};
ghost use Rattle.repcheck.specs.Judged.{Replied};

use program::ANSWER;
use results::Refusal;

// Bytes of a presentation text and of a table text, at most.
const GROUP: usize = 4096;

const TABLE: usize = 24576;

// Words that are lent to the reader of table text: those of 1,024 lines.
const WORDS: usize = 8192;

// The refusal of reading a table text, or of checking its words for a presentation text that is accepted.
fn judge_table(group: &[u8], table: &[u8]) -> Result<(), Refusal>
    requires { Accept group.now 0 }
    ensures { Replied group.now table.now (answer result) }
{
    let mut words = [0u32; WORDS];
    let lines = chieftables::read_table::read_table(table, &mut words)?;
    chieftables::check::check(group, &words[..8 * lines])
}

// The refusal of the bytes of the two files, of which there may be too many: all refusals of the group come first.
fn judge_files(group: &[u8], table: &[u8]) -> Result<(), Refusal>
    ensures { Repcheck group.now table.now (answer result) }
{
    if group.len() > GROUP {
        return Err(Refusal::PresentationForm);
    }
    chieftables::accept::accept(group)?;
    if table.len() > TABLE {
        return Err(Refusal::TableForm);
    }
    judge_table(group, table)
}

// Prints the text of an answer.
fn print_answer(judged: Result<(), Refusal>) {
    let mut out = [0u8; ANSWER];
    let count = program::put_answer(&mut out, results::answer(&judged));
    io::write_all(1, &out[..count]);
}

// One byte more is read than a text may have, so that a longer file is seen.
fn main(rt: HostRuntime) {
    let mut group = [0u8; GROUP + 1];
    let mut table = [0u8; TABLE + 1];
    let g = program::read_file(&rt, b"group.txt", &mut group);
    let t = program::read_file(&rt, b"table.txt", &mut table);
    print_answer(judge_files(&group[..g], &table[..t]));
}
