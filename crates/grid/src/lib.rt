// A grid of windows side by side (docs/SPECIFICATION.md §19): its ranges, and the windows that a rectangle meets, by arithmetic.
#![tactic(auto)]

pub mod axis;
pub mod grid;
