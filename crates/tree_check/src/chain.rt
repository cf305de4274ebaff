// Chains: of a leaf, or of the free places.
ghost use Rattle.std.specs.Prelude.{Bool};
ghost use Rattle.model.specs.declared.Dot.{Dot};
ghost use Rattle.memory.specs.Lent.{held};
ghost use Rattle.tree_check.specs.Marks.{WalkReady};
ghost use Rattle.tree_check.specs.Chains.{Tells, ChainScanned};

use crate::marks::mark;
use memory::node::Node;
use memory::places::{dot_at, next_at};
use memory::rows::Rows;
use model::Dot;

// Whether as many dots as the chain counts, each of which passes the test, are chained from its first, at places of which none was marked.
// Marks those that it meets.
// A call of its own: within the walk's body the loop over the dots takes a fifth longer.
#[inline(never)]
pub fn check_chain<F: Fn(Dot) -> bool>(
    rows: Rows<'_>,
    marks: &mut [u8],
    passes: F,
    chain: Node,
) -> bool
    requires callable { F.IsAlwaysCallable passes }
    requires ready { WalkReady (held rows) marks.old }
    ensures { (test : Dot → Bool) → Tells (F.post passes) test
        → ChainScanned test (held rows.entry) marks.old chain.first chain.count marks.new result }
{
    let places = rows.places();
    let mut link = chain.first;
    for _ in 0..chain.count {
        let place = link as usize;
        if place >= places {
            return false;
        }
        if !mark(marks, place) {
            return false;
        }
        if !passes(dot_at(rows.dots, rows.rects, place)) {
            return false;
        }
        link = next_at(rows.dots, place);
    }
    link == Node::NONE
}
