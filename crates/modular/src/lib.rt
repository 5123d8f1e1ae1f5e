// Sums and differences of exponents, modulo m and without a branch.
//
//   reduce               a number below 2m modulo m
//   add_mod, sub_mod     the sum and the difference of two numbers below m
#![tactic(auto)]

ghost use Rattle.std.specs.Prelude.{◌≡◌, ◌+◌, ◌%◌, ◌≤◌, ◌<◌};
ghost use Rattle.definitions.specs.Monomial.{less};

// A number below 2m modulo m, without a branch: `over` is 1 if it reaches m, and 0 else.
fn reduce(s: u32, m: u32) -> u32
    requires { (s < m + m) × (m ≤ 2147483648) }
    ensures { (result ≡ s % m) × (result < m) }
{
    let over = (s + (2147483648 - m)) / 2147483648;
    s - m * over
}

// The sum modulo m of two numbers below m.
pub fn add_mod(a: u32, b: u32, m: u32) -> u32
    requires { (a < m) × (b < m) × (m ≤ 2147483648) }
    ensures { (result ≡ (a + b) % m) × (result < m) }
{
    reduce(a + b, m)
}

// Their difference modulo m.
pub fn sub_mod(a: u32, b: u32, m: u32) -> u32
    requires { (a < m) × (b < m) × (m ≤ 2147483648) }
    ensures { (result ≡ less m a b) × (result < m) }
{
    reduce(a + (m - b), m)
}
