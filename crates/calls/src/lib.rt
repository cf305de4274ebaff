// The public calls. Each but make begins with the check of the memory that it is lent.
#![tactic(auto)]

pub mod all;
pub mod ask;
pub mod cleanup;
pub mod insert;
pub mod leaves;
pub mod make;
pub mod patch;
pub mod place;
pub mod query;
pub mod references;
pub mod remove;
pub mod report;
