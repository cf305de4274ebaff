// Where an insert ends, found before anything is stored: its refusal, or its leaf and its splits.
ghost use Rattle.memory.specs.Lent.{held};
ghost use Rattle.tree.specs.Operations.{IsTree};
ghost use Rattle.tree_insert.specs.Landing.{Lands};

use crate::needed::splits_needed;
use geometry::quad_rect::QuadRect;
use memory::lengths::places_in;
use memory::node::node_at;
use memory::rows::Rows;
use model::refusal::Refusal;
use model::{Dot, State};
use tree::find::{Leaf, find_leaf};

// The leaf that a dot routes to, and the splits on its way from there.
#[derive(Clone, Copy)]
pub struct Landing {
    pub leaf: Leaf,
    pub splits: u32,
}

// Refusals 4, 10, 5, 6, 7 and 16 in this order (§11.4), else the landing.
pub fn land(state: State, rows: Rows<'_>, dot: Dot) -> Result<Landing, Refusal>
    requires { IsTree state (held rows) }
    ensures { Lands state dot (held rows.entry) result }
{
    let settings = state.settings;
    let rect = dot.rect;
    if rect.is_inverted() | rect.is_far_out() {
        return Err(Refusal::BadRectangle);
    }
    if !dot.has_good_ink() {
        return Err(Refusal::BadInk);
    }
    if !QuadRect::from(settings).contains(rect) {
        return Err(Refusal::OutsideRoot);
    }
    // The live dots, with this one.
    let live = state.live as usize + 1;
    if places_in(rows.dots) < live {
        return Err(Refusal::NoFreePlace);
    }
    let leaf = find_leaf(settings, rows.nodes, rect);
    let chain = node_at(rows.nodes, leaf.node);
    let needed = splits_needed(state, rows, chain, leaf.node_data, rect);
    let Some(splits) = needed else {
        return Err(Refusal::NoFreeGroups);
    };
    if !state.can_count(1) {
        return Err(Refusal::TooManyChanges);
    }
    Ok(Landing { leaf, splits })
}
