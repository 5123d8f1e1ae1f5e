// Whether the group of a presentation text is commutative: 11 to 15, or a yes or no. No table is built.
ghost use Rattle.definitions.specs.Answers.{Commutative};
ghost use Rattle.results.specs.Numbers.{answer, yes};

use results::Refusal;

// Whether every representation of the top level of the table of a presentation text has degree 1, or its refusal.
pub fn commutative(text: &[u8]) -> Result<bool, Refusal>
    ensures { Commutative text.now (answer result) (yes result) }
{
    commutativity::commutative(text)
}
