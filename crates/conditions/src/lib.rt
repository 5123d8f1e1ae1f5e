// The conditions of refusals 12 to 14 on the rows that are kept of a presentation, and its size.
#![tactic(auto)]

pub mod prime; // prime.rt: primality of a value
pub mod judge; // judge.rt: the order, and every word
pub mod size; // size.rt: the order, and the words of a build
