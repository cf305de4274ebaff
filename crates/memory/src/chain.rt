// A chain of places, from its head on: each place's next word names the place after it.
ghost use Rattle.std.specs.Prelude.{◌≡◌};
ghost use Rattle.std.specs.Iterator.{at_most};
ghost use Rattle.memory.specs.Chains.{HasChain, ChainStep};

use crate::node::Node;
use crate::places::next_at;

// The places that are left of a chain: the next one, and how many.
#[derive(Clone, Copy)]
pub struct Chain<'a> {
    dots: &'a [u32],
    at: u32,
    left: u32,
}

impl<'a> Chain<'a> {
    // A leaf's chain.
    pub fn new(dots: &'a [u32], leaf: Node) -> Chain<'a>
        ensures { (result.dots.now ≡ dots.now) × (result.at ≡ leaf.first) × (result.left ≡ leaf.count) }
    {
        Chain {
            dots,
            at: leaf.first,
            left: leaf.count,
        }
    }
}

impl<'a> Iterator for Chain<'a> {
    type Item = usize;

    ghost can_next = { λ s. HasChain s.dots.now s.at s.left };

    ghost next_gives = { ChainStep };

    ghost remaining = { λ s. at_most s.left };

    #[tactic(auto, unfolding(crate::specs::Chains::HasChain))]
    fn next(&mut self) -> Option<usize> {
        if self.left == 0 {
            return None;
        }
        let place = self.at as usize;
        self.at = next_at(self.dots, place);
        self.left -= 1;
        Some(place)
    }
}
