// The public calls.
#![tactic(auto)]

pub mod accept; // accept.rt: whether a presentation text is accepted
pub mod build; // build.rt: a presentation text to words
pub mod check; // check.rt: a table for a presentation text
pub mod commutative; // commutative.rt: whether the group of a presentation text is commutative
pub mod measure; // measure.rt: the words that a build of a presentation text wants
pub mod read_table; // read_table.rt: table text to words
pub mod write_table; // write_table.rt: words to table text
