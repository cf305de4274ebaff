// The calls that only read the tree, without the check.
#![tactic(auto)]

pub mod leaves;
pub mod query;
mod rows;
mod walk;
