// The interface for a host in C or Rust: the public calls on numbers and lent rows, which host_rows reads and writes.
// Rows, results and answers are those of §18. A row of another length is refusal 1. C lends the rows one by one, so each call gathers them.
#![tactic(auto)]

pub mod asking;
pub mod batching;
pub mod changing;
pub mod patching;
pub mod ticketing;
