// Runs signed powers of matrices: those of the standard input, with sixteen exponents each, a line for each power.
//
// A case is a line, then lines of a table, then a form feed. The line begins with the degree, at most 128, and the modulus; the
// lines are the columns of a matrix, and of them rows and exponents count. For each exponent the degree, the modulus, the exponent
// and a sum over the power are printed: over rows and exponents of its columns, the c-th times the (c mod m)-th power of the root.
// For what is no matrix of that degree the degree, the modulus and `no matrix` are printed.
//
//   power_column               a column of a power, times a power of the root
//   store_power, power_sum     all of them in words, and the sum over these
//   print_power, print_powers  the line of a power, and those of a matrix
//   answer                     a case
#![tactic(auto)]

ghost use Rattle.std.specs.Prelude.{◌≤◌, ◌<◌, ◌≡◌, length};
ghost use Rattle.level.specs.Stored.{Holds};

use case_input::Input;
use definitions::Entry;
use level::Listed;

// Bytes of the standard input, at most.
const INPUT: usize = 65536;

const DEGREES: u32 = 128;

const MODULUS: u32 = 2147483648;

// The exponents of every matrix, beside its degree and the opposite of that.
const EXPONENTS: [i32; 14] = [
    0,
    1,
    -1,
    2,
    -2,
    60,
    -61,
    576,
    -144,
    98304,
    -1000000007,
    2147483647,
    -2147483647,
    -2147483648,
];

// Column c of the k-th power, times the (c mod m)-th power of the root.
fn power_column(words: &[u32], d: u32, k: i32, c: u32, m: u32) -> Entry
    requires { Holds m words.now 0 d × (c < d) }
{
    let x = Entry { row: c, exp: c % m };
    level::power_entry(words, 0, d, k, x, m)
}

// Stores rows and exponents of all columns.
fn store_power(words: &[u32], d: u32, k: i32, m: u32, out: &mut [u32])
    requires { Holds m words.now 0 d × (d ≤ 128) × (length out.old ≡ 256) }
    ensures { length out.new ≡ 256 }
{
    for c in 0..d {
        let y = power_column(words, d, k, c, m);
        let at = level::up(c);
        out[2 * at] = y.row;
        out[2 * at + 1] = y.exp;
    }
}

fn power_sum(words: &[u32], d: u32, k: i32, m: u32) -> u32
    requires { Holds m words.now 0 d × (d ≤ 128) }
{
    let mut out = [0u32; 256];
    store_power(words, d, k, m, &mut out);
    let n = 2 * level::up(d);
    case_input::mix_words(&out[..n])
}

// A line that cannot be written is skipped, as in every program here: the next line is tried, and the status stays 0.
fn print_power(rt: &impl Print, words: &[u32], d: u32, k: i32, m: u32)
    requires { Holds m words.now 0 d × (d ≤ 128) }
{
    let sum = power_sum(words, d, k, m);
    let _ = println!(rt; "{d} {m} {k} {sum}");
}

fn print_powers(rt: &impl Print, words: &[u32], d: u32, m: u32)
    requires { Holds m words.now 0 d × (d ≤ 128) }
{
    for k in EXPONENTS {
        print_power(rt, words, d, k, m);
    }
    print_power(rt, words, d, d as i32, m);
    print_power(rt, words, d, 0 - d as i32, m);
}

fn answer(rt: &impl Print, line: &[u8], text: &[u8]) {
    let mut numbers = [0u32; 2];
    case_input::parse(line, &mut numbers);
    let d = numbers[0];
    let m = numbers[1];
    let mut words = [0u32; 1024];
    case_input::parse(text, &mut words);
    if d <= DEGREES {
        if m <= MODULUS {
            let r = Listed { line: 0, deg: d };
            if check_lines::matrices_ok(&words, r, 1, m) {
                print_powers(rt, &words, d, m);
                return;
            }
        }
    }
    let _ = println!(rt; "{d} {m} no matrix");
}

fn main(rt: HostRuntime) {
    let mut input = [0u8; INPUT];
    let n = io::read_full(0, &mut input);
    for (line, text) in Input::new(&input[..n]) {
        answer(&rt, line, text);
    }
}
