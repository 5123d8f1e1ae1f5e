// The presentation that an accepted text says: the reader's answer, and behind it that of the consistency test.
//
//   accepted      reads and tests it, or answers the first of 11 to 15
#![tactic(auto)]

ghost use Rattle.acceptance.specs.Accepted.{AcceptedText};

use presentation::ReadPresentation;
use results::Refusal;

// Reads the presentation that a text says into p, or answers its refusal: the reader's 11 to 14, then 15.
pub fn accepted(text: &[u8], p: &mut ReadPresentation) -> Result<(), Refusal>
    ensures { AcceptedText text.now result p.new }
{
    presentation::read(text, p)?;
    if !consistency::consistent(&p.primes, &p.rows, p.n) {
        return Err(Refusal::Inconsistent);
    }
    Ok(())
}
