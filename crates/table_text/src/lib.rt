// What reading and writing table text share.
//
//   LINE, NAMES     words of a line, bytes of the names line
//   separator       the byte behind a word
#![tactic(auto)]

ghost use Rattle.std.specs.Prelude.{◌≡◌};
ghost use Rattle.table_text.specs.Pieces.{separator_of};

// Words of a line.
pub const LINE: usize = 8;

// Bytes of the names line.
pub const NAMES: usize = 34;

// The byte behind word k: the last of a line is ended by byte 10, the others by a space.
pub fn separator(k: usize) -> u8
    ensures { result ≡ separator_of k }
{
    if k % LINE == 7 { b'\n' } else { b' ' }
}
