// Whether the commutator words of a presentation are empty, as its rows tell.
//
//   words_empty      those of all pairs of the first n generators
#![tactic(auto)]

ghost use Rattle.std.specs.Prelude.{◌≡◌, ◌≤◌};
ghost use Rattle.definitions.specs.Presentation.{max_generators};
ghost use Rattle.commutators.specs.Empty.{rows_empty};

use rows::{Rows, pair};

// The word of every pair of the first n generators is empty. The scan ends at the first exponent that is not 0: a loop in a loop, left
// by its label, is the form that the specification names here. The word of (j, i) has no exponent behind that of generator i.
pub fn words_empty(rows: &Rows, n: usize) -> bool
    requires { n ≤ max_generators }
    ensures { result ≡ rows_empty rows.now n }
{
    let mut empty = true;
    'scan: for j in 1..n {
        for i in 0..j {
            let at = pair(j, i);
            for k in 0..i + 1 {
                if rows[at][k] != 0 {
                    empty = false;
                    break 'scan;
                }
            }
        }
    }
    empty
}
