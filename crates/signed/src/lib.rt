// Signed exponents of powers, by direction and size, and made up of rounds of a length.
//
//   Signed                a number, forward or back
//   Rounds, rounds_of     whole rounds, forward or back, and the turns behind them; those of a number
#![tactic(auto)]

ghost use Rattle.std.specs.Prelude.{◌≡◌, ◌<◌};
ghost use Rattle.signed.specs.Signs.{number, RoundsOf};

// A number by its size: n, or, below zero, -(n + 1).
#[derive(Clone, Copy)]
pub enum Signed {
    Forward(u32),
    Back(u32),
}

// A signed word. Below zero the word itself is never negated, so that the lowest is like any other.
impl From<i32> for Signed {
    ghost from_gives = { λ k s. k ≡ number s };

    fn from(k: i32) -> Signed {
        if 0 <= k {
            Signed::Forward(k as u32)
        } else {
            Signed::Back((0 - (k + 1)) as u32)
        }
    }
}

// `rounds` rounds of a length, in the direction of a number, and `rest` turns forward behind them.
#[derive(Clone, Copy)]
pub struct Rounds {
    pub rounds: usize,
    pub rest: u32,
}

// The rounds of a length, and the turns behind them, that make up k: fewer turns than a round has.
pub fn rounds_of(k: Signed, length: u32) -> Rounds
    requires { 0 < length }
    ensures { RoundsOf k length result }
{
    match k {
        Signed::Forward(n) => Rounds {
            rounds: (n / length) as usize,
            rest: n % length,
        },
        Signed::Back(n) => Rounds {
            rounds: (n / length) as usize + 1,
            rest: length - 1 - n % length,
        },
    }
}
