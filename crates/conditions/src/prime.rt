// Primality, by trial division up to the root.
ghost use Rattle.std.specs.Prelude.{◌≡◌, ◌≤◌};
ghost use Rattle.definitions.specs.Text.{largest};
ghost use Rattle.definitions.specs.Presentation.{is_prime};

pub fn is_prime(p: u32) -> bool
    requires { p ≤ largest }
    ensures { result ≡ is_prime p }
{
    if p < 2 {
        return false;
    }
    for d in 2..p {
        if p < d * d {
            return true;
        }
        if p % d == 0 {
            return false;
        }
    }
    true
}
