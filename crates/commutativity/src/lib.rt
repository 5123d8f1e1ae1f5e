// Whether the group of a presentation text is commutative: 11 to 15, or a yes or no.
//
//   commutative     whether every representation of the top level has degree 1
#![tactic(auto)]

ghost use Rattle.definitions.specs.Answers.{Commutative};
ghost use Rattle.results.specs.Numbers.{answer, yes};

use acceptance::accepted;
use results::Refusal;

// Whether every representation of the top level of a presentation text has degree 1, or its refusal: the commutator words are then
// empty.
pub fn commutative(text: &[u8]) -> Result<bool, Refusal>
    ensures { Commutative text.now (answer result) (yes result) }
{
    let mut p = presentation::BLANK;
    accepted(text, &mut p)?;
    Ok(commutators::words_empty(&p.rows, p.n))
}
