// What the operations on a tree in the lent memory share: the way to a leaf, and the laws of stores.
#![tactic(auto)]

pub mod find;
