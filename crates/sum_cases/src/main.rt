// Runs sums and differences of exponents, and prints numbers: a line for each modulus up to 64, and eight for each of some larger ones.
//
//   both, all_pairs, mixed     sum and difference as one number, those of all pairs of numbers below m, and a sum over them
//   print_edges                m, a, and what an operation makes of a and of 0, 1, m / 2 and m - 1
//   print_square               these with each of the four as a
//   print_modulus              the sums, and the differences
#![tactic(auto)]

ghost use Rattle.std.specs.Prelude.{◌≡◌, ℕ, ◌<◌, ◌≤◌, length};

// ---- All pairs, m at most 64

// The sum of two numbers, and 64 times their difference.
fn both(a: u32, b: u32, m: u32) -> u32
    requires { (a < m) × (b < m) × (m ≤ 64) }
{
    modular::add_mod(a, b, m) + 64 * modular::sub_mod(a, b, m)
}

// Stores these for all pairs of numbers below m, the second number running first, and returns how many there are.
fn all_pairs(m: u32, out: &mut [u32]) -> usize
    requires { (0 < m) × (m ≤ 64) × (length out.old ≡ 4096) }
    ensures { (result ≤ 4096) × (length out.new ≡ 4096) }
{
    let pairs = m * m;
    for k in 0..pairs {
        out[k as usize] = both(k / m, k % m, m);
    }
    pairs as usize
}

fn mixed(m: u32) -> u32
    requires { (0 < m) × (m ≤ 64) }
{
    let mut out = [0u32; 4096];
    let pairs = all_pairs(m, &mut out);
    case_input::mix_words(&out[..pairs])
}

// ---- The edges of larger moduli

// A line that cannot be written is skipped, as in every program here: the next line is tried, and the status stays 0.
fn print_edges<F: Fn(u32, u32) -> u32>(rt: &impl Print, of: &F, a: u32, m: u32)
    requires callable { (x : ℕ) → (y : ℕ) → x < m → y < m → F.pre of.now x y }
    requires within { (a < m) × (2 ≤ m) }
{
    let zero = of(a, 0);
    let one = of(a, 1);
    let half = of(a, m / 2);
    let last = of(a, m - 1);
    let _ = println!(rt; "{m} {a} {zero} {one} {half} {last}");
}

fn print_square<F: Fn(u32, u32) -> u32>(rt: &impl Print, of: F, m: u32)
    requires callable { (x : ℕ) → (y : ℕ) → x < m → y < m → F.pre of x y }
    requires within { 2 ≤ m }
{
    print_edges(rt, &of, 0, m);
    print_edges(rt, &of, 1, m);
    print_edges(rt, &of, m / 2, m);
    print_edges(rt, &of, m - 1, m);
}

fn print_modulus(rt: &impl Print, m: u32)
    requires { (2 ≤ m) × (m ≤ 2147483648) }
{
    print_square(
        rt,
        |a, b|
            requires { (a < m) × (b < m) × (m ≤ 2147483648) }
        { modular::add_mod(a, b, m) },
        m,
    );
    print_square(
        rt,
        |a, b|
            requires { (a < m) × (b < m) × (m ≤ 2147483648) }
        { modular::sub_mod(a, b, m) },
        m,
    );
}

fn main(rt: HostRuntime) {
    for m in 1..=64 {
        let sum = mixed(m);
        let _ = println!(&rt; "{m} {sum}");
    }
    for m in [4093, 4096, 16384, 2147483647, 2147483648] {
        print_modulus(&rt, m);
    }
}
