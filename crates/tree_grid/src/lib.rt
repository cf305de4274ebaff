// The window grid report without the check (§19): the counts by adding up dot after dot, the total by arithmetic.
#![tactic(auto)]

mod counts;
mod places;
pub mod report;
