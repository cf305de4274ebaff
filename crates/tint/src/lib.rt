// A tint patch by itself: its threshold table, and its dots within bounds.
#![tactic(auto)]

pub mod count;
pub mod sums;
pub mod table;
pub mod thresholds;
