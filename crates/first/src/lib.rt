// Level 1, as lines at the start of the caller's words: its representations are the powers of one root.
#![tactic(auto)]

ghost use Rattle.std.specs.Prelude.{◌≡◌, ◌+◌, ◌*◌, ◌≤◌, ◌<◌, length};
ghost use Rattle.text.specs.Writing.{Wrote};
ghost use Rattle.first.specs.Roots.{WordsBelow, root_ref, root_exp, root_words, first_words};
ghost use Rattle.definitions.specs.Presentation.{max_generators, max_order, max_modulus};

use definitions::Entry;
use lines::Head;
use rows::Rows;

// Where the intertwiner of generator g leads power k; 0 for the generator of the level.
fn reference(rows: &Rows, n: u32, p: u32, k: u32, g: u32) -> u32
    requires { (n ≤ max_generators) × (g < n) × (p ≤ max_order) × (k < p) × WordsBelow n p rows.now }
    ensures { result ≡ root_ref p rows.now k g }
{
    if g == 0 {
        return 0;
    }
    let w = rows::word(rows, g as usize, 0);
    k * (w[0] + 1) % p
}

// The exponent of generator g in power k.
fn exponent(p: u32, m: u32, k: u32, g: u32) -> u32
    requires { (p ≤ max_order) × (m ≤ max_modulus) × (k < p) }
    ensures { result ≡ root_exp p m k g }
{
    if g == 0 {
        return k * (m / p);
    }
    0
}

// Appends power k of the root: a line for each generator. Returns the next line's number.
fn append_root(words: &mut [u32], rows: &Rows, n: u32, p: u32, m: u32, at: usize, k: u32) -> usize
    requires { (n ≤ max_generators) × (p ≤ max_order) × (m ≤ max_modulus) × (k < p) × WordsBelow n p rows.now × (8 * at + 8 * n ≤ length words.old) }
    ensures { Wrote words.old (8 * at) (root_words n p m rows.now k) words.new (8 * result) }
{
    let mut pos = at;
    for g in 0..n {
        let refn = reference(rows, n, p, k, g);
        let exp = exponent(p, m, k, g);
        let h = Head {
            level: 1,
            rep: k,
            deg: 1,
            generator: g + 1,
            refn,
        };
        pos = lines::put_line(words, pos, h, 0, Entry { row: 0, exp });
    }
    pos
}

// Writes level 1 of n generators, the lowest of prime p, with exponents modulo m. Returns the next line's number.
pub fn first_level(words: &mut [u32], rows: &Rows, n: u32, p: u32, m: u32) -> usize
    requires { (n ≤ max_generators) × (p ≤ max_order) × (m ≤ max_modulus) × WordsBelow n p rows.now × (8 * (p * n) ≤ length words.old) }
    ensures { Wrote words.old 0 (first_words n p m rows.now) words.new (8 * result) }
{
    let mut pos = 0;
    for k in 0..p {
        pos = append_root(words, rows, n, p, m, pos, k);
    }
    pos
}
