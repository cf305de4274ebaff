// The lent memory: where each word of a node and of a place stands, how long the rows are, and the fresh tree.
// Layers above know nodes, groups and places by number, and no offsets.
#![tactic(auto)]

pub mod chain;
pub mod fresh;
pub mod lengths;
pub mod marks;
pub mod node;
pub mod places;
pub mod rows;
