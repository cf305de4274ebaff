// The rows of a host (§18): a state of twelve words, an answer of two, a record of seven, a ticket of eight; and what a call writes there.
#![tactic(auto)]

pub mod answers;
pub mod records;
pub mod rows;
pub mod tickets;
