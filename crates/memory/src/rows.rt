// The rows of a tree, lent as one value. What touches only some of them takes those, and its contract need not speak of the others.
// The state is none of them: each change answers it anew. Nor are the marks, which make clears and the check writes, also where rows are lent for reading.
ghost use Rattle.std.specs.Prelude.{◌≡◌};
ghost use Rattle.memory.specs.Lent.{held, places_held, groups_held};

use crate::lengths::{groups_in, places_in};

// Lent for reading.
#[derive(Clone, Copy)]
pub struct Rows<'a> {
    pub nodes: &'a [u32],
    pub dots: &'a [u32],
    pub rects: &'a [i32],
}

impl<'a> Rows<'a> {
    // N, read off the row of dots.
    #[tactic(auto, unfolding(crate::specs::Lent::places_held))]
    pub fn places(self) -> usize
        ensures { result ≡ places_held (held self.entry) }
    {
        places_in(self.dots)
    }

    // G, read off the row of nodes.
    #[tactic(auto, unfolding(crate::specs::Lent::groups_held))]
    pub fn groups(self) -> usize
        ensures { result ≡ groups_held (held self.entry) }
    {
        groups_in(self.nodes)
    }
}

// Lent for changes.
#[derive(Drop)]
pub struct RowsMut<'a> {
    pub nodes: &'a mut [u32],
    pub dots: &'a mut [u32],
    pub rects: &'a mut [i32],
}

impl<'a> RowsMut<'a> {
    // The same rows, lent on for reading.
    pub fn shared(&self) -> Rows<'_>
        ensures { (result.nodes.now ≡ self.now.nodes.now) × (result.dots.now ≡ self.now.dots.now) × (result.rects.now ≡ self.now.rects.now) }
    {
        Rows {
            nodes: self.nodes,
            dots: self.dots,
            rects: self.rects,
        }
    }
}
