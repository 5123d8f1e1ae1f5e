// Why a call is refused.
//
//   Refusal      the reasons
//   number       the number of a refusal
//   answer       the number of a result
#![tactic(auto)]

ghost use Rattle.std.specs.Prelude.{◌≡◌};
ghost use Rattle.results.specs.Numbers.{number, answer};

// The reasons, by rising number.
#[derive(Clone, Copy, PartialEq, Eq, Debug)]
pub enum Refusal {
    // The presentation text is not in the form.
    PresentationForm,
    // The p of a line with i = j is not prime.
    NotPrime,
    // There are too many generators, or the order is too large.
    TooLarge,
    // An exponent is not below its prime, a generator is not allowed there, or a p is not 0.
    Word,
    // The relations make two normal forms equal.
    Inconsistent,
    // The buffer is shorter than the call wants.
    Short,
    // The table text is not in the form.
    TableForm,
    // The words are not the lines of a table.
    Lines,
    // A relation fails.
    Relation,
    // A restriction differs from the blocks that are listed.
    Restriction,
    // An intertwiner fails, or leads to another degree.
    Intertwiner,
    // A basis index is not reached, or two are not separated.
    Separation,
    // The squares of the degrees do not add up to the order.
    Squares,
}

impl Refusal {
    // Its number.
    pub fn number(self) -> u32
        ensures { result ≡ number self }
    {
        match self {
            Refusal::PresentationForm => 11,
            Refusal::NotPrime => 12,
            Refusal::TooLarge => 13,
            Refusal::Word => 14,
            Refusal::Inconsistent => 15,
            Refusal::Short => 16,
            Refusal::TableForm => 20,
            Refusal::Lines => 21,
            Refusal::Relation => 22,
            Refusal::Restriction => 23,
            Refusal::Intertwiner => 24,
            Refusal::Separation => 25,
            Refusal::Squares => 26,
        }
    }
}

// The number of a result: that of its refusal, or 0.
pub fn answer<T>(r: &Result<T, Refusal>) -> u32
    ensures { result ≡ answer r.now }
{
    match r {
        Ok(_) => 0,
        Err(e) => e.number(),
    }
}
