// Lines in the caller's words, appended: what the lines of one matrix share, and the lines of a matrix as a block of a greater one.
//
//   Head                         what the lines of one matrix share
//   Piece                        a matrix as a block of a greater one
//   put_line                     one line
//   append_copy                  the lines of a matrix as it stands, with another head
//   block_entry                  a column of a piece, as it stands in the greater matrix
//   append_line, append_block    the line of a piece of degree 1; the lines of a piece
#![tactic(auto)]

ghost use Rattle.std.specs.Prelude.{◌≡◌, ◌+◌, ◌*◌, ◌≤◌, ◌<◌, length, take};
ghost use Rattle.lines.specs.Lines.{head_line, copy_lines, block_entry, block_lines, Copied, Space, Appended};

use definitions::Entry;

// What the lines of one matrix share.
#[derive(Clone, Copy)]
pub struct Head {
    pub level: u32,
    pub rep: u32,
    pub deg: u32,
    pub generator: u32,
    pub refn: u32,
}

// A matrix as a block of a greater one: its first line and its degree, the columns and the rows before it, and the power of
// the root that it is multiplied by.
#[derive(Clone, Copy)]
pub struct Piece {
    pub src: usize,
    pub deg: u32,
    pub col: u32,
    pub row: u32,
    pub by: u32,
}

// Writes one line, and returns the next line's number.
pub fn put_line(words: &mut [u32], at: usize, h: Head, k: u32, x: Entry) -> usize
    requires { 8 * at + 8 ≤ length words.old }
    ensures { Appended words.old at (head_line h k x) words.new result }
{
    let i = 8 * at;
    words[i + level::LEVEL] = h.level;
    words[i + level::REP] = h.rep;
    words[i + level::DEG] = h.deg;
    words[i + level::GEN] = h.generator;
    words[i + level::REF] = h.refn;
    words[i + level::COL] = k;
    words[i + level::ROW] = x.row;
    words[i + level::EXP] = x.exp;
    at + 1
}

// Appends the lines of the matrix at line src, below line low, with another head. Returns the next line's number.
pub fn append_copy(words: &mut [u32], low: usize, at: usize, h: Head, src: usize) -> usize
    requires { (src + h.deg ≤ low) × Space low at (8 * h.deg) words.old }
    ensures { Appended words.old at (copy_lines h src (take (8 * low) words.old)) words.new result }
{
    let n = 8 * low;
    if h.deg == 1 {
        let x = level::entry_at(&words[..n], src);
        return put_line(words, at, h, 0, x);
    }
    let mut pos = at;
    for k in 0..h.deg {
        let x = level::entry_at(&words[..n], src + k as usize);
        pos = put_line(words, pos, h, k, x);
    }
    pos
}

// Column k of a piece, its row and its exponent as they stand in the greater matrix.
fn block_entry(words: &[u32], b: Piece, k: u32, m: u32) -> Entry
    requires { Copied m words.now b × (k < b.deg) }
    ensures { result ≡ block_entry m b words.now k }
{
    let e = level::column(words, b.src, b.deg, k, m);
    Entry {
        row: b.row + e.row,
        exp: modular::add_mod(e.exp, b.by, m),
    }
}

// Appends the line of a piece of degree 1. Returns the next line's number.
fn append_line(words: &mut [u32], low: usize, at: usize, h: Head, b: Piece, m: u32) -> usize
    requires { Copied m (take (8 * low) words.old) b × Space low at (8 * b.deg) words.old × (b.deg ≡ 1) }
    ensures { Appended words.old at (block_lines m h b (take (8 * low) words.old)) words.new result }
{
    let n = 8 * low;
    let e = level::word_at(&words[..n], b.src, level::EXP);
    let x = Entry {
        row: b.row,
        exp: modular::add_mod(e, b.by, m),
    };
    put_line(words, at, h, b.col, x)
}

// Appends the lines of a piece, whose matrix stands below line low. Returns the next line's number.
pub fn append_block(words: &mut [u32], low: usize, at: usize, h: Head, b: Piece, m: u32) -> usize
    requires { Copied m (take (8 * low) words.old) b × Space low at (8 * b.deg) words.old }
    ensures { Appended words.old at (block_lines m h b (take (8 * low) words.old)) words.new result }
{
    if b.deg == 1 {
        return append_line(words, low, at, h, b, m);
    }
    let n = 8 * low;
    let mut pos = at;
    for k in 0..b.deg {
        let x = block_entry(&words[..n], b, k, m);
        pos = put_line(words, pos, h, b.col + k, x);
    }
    pos
}
