// The presentation that a text says, and the answer to the text (refusals 11 to 14).
//
//   ReadPresentation      n, the primes, and the words in rows, one for each pair
//   BLANK                 an empty one, to read into
//   conclude              refusals 13 and 14 on what was kept of a text whose generators have room
//   read                  reads the presentation that a text says
#![tactic(auto)]

ghost use Rattle.std.specs.Prelude.{◌≡◌, ℕ, ◌<◌, ◌≤◌, get_or};
ghost use Rattle.definitions.specs.Presentation.{max_generators, pair_number};
ghost use Rattle.presentation.specs.Outcome.{Concluded, ReadText};

use conditions::judge;
use results::Refusal;
use rows::{GENERATORS, PAIRS, Row, Rows};

// A presentation that was read: how many generators it has, their primes, and the word of each pair.
#[derive(Clone, Copy)]
pub struct ReadPresentation {
    pub n: usize,
    pub primes: Row,
    pub rows: Rows,
}

// An empty presentation, to read into.
pub const BLANK: ReadPresentation = ReadPresentation {
    n: 0,
    primes: [0; GENERATORS],
    rows: [[0; GENERATORS]; PAIRS],
};

// Refusals 13 and 14 for a text with n generators, whose words are in the rows of p. Stores n and the primes.
fn conclude(n: usize, p: &mut ReadPresentation, ps: &[u32; PAIRS]) -> Result<(), Refusal>
    requires n_le_max_generators { n ≤ max_generators }
    requires by_index { (j : ℕ) → j < n → 0 < get_or ps.now (pair_number j j) 0 }
    ensures { Concluded n p.old.rows ps.now result p.new }
{
    p.n = n;
    p.primes = judge::primes_of(ps, n);
    if !judge::order_fits(&p.primes, n) {
        return Err(Refusal::TooLarge);
    }
    if !judge::well(&p.rows, ps, &p.primes, n) {
        return Err(Refusal::Word);
    }
    Ok(())
}

// Reads the presentation that a text says into p, or answers the first refusal of 11 to 14. The caller provides p, since a value of
// this size would be copied wherever it is returned.
pub fn read(text: &[u8], p: &mut ReadPresentation) -> Result<(), Refusal>
    ensures { ReadText text.now result p.new }
{
    let Some((n, at)) = reader::names(text) else {
        return Err(Refusal::PresentationForm);
    };
    let mut ps = [0u32; PAIRS];
    let Some(primes) = reader::read_lines(text, at, n, &mut p.rows, &mut ps) else {
        return Err(Refusal::PresentationForm);
    };
    if !primes {
        return Err(Refusal::NotPrime);
    }
    let count = n as usize;
    if GENERATORS < count {
        return Err(Refusal::TooLarge);
    }
    conclude(count, p, &ps)
}
