// The one type that code and definitions share: a column of a monomial matrix. The basis vector of the column goes to
// the exp-th power of the root of unity times basis vector `row`. Everything else of this crate stands in specs/.
#![tactic(auto)]

#[derive(Clone, Copy, PartialEq, Eq, Debug)]
pub struct Entry {
    pub row: u32,
    pub exp: u32,
}
