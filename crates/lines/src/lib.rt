// Lines of text, read and written: decimal numbers, fields parted by commas, the lines of the calls and of their answers, the line of a grid and the report.
#![tactic(auto)]

pub mod answer;
mod field;
pub mod grid_line;
pub mod line;
mod number;
pub mod report;
mod row;
