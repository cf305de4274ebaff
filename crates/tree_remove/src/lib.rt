// Remove without the check: the first dot with an id in the leaf that a rectangle routes to goes, and its place is free.
#![tactic(auto)]

ghost use Rattle.std.specs.Prelude.{◌≡◌, List, None, IfSome, ◌≤◌};
ghost use Rattle.model.specs.Dots.{zero_dot};
ghost use Rattle.model.specs.Trees.{Placed};
ghost use Rattle.model.specs.Calls.{remove_rule};
ghost use Rattle.model.specs.Answers.{yes_no_state, yes_no_reply};
ghost use Rattle.memory.specs.Lent.{held_mut, SameRows};
ghost use Rattle.memory.specs.Rows.{HasNode, HasPlace, HasRect, set_node_at, set_next_at, set_dot_at, set_rect_at};
ghost use Rattle.tree.specs.Operations.{IsTree, CarriedOut};
ghost use Rattle.tree_remove.specs.Search.{Searchable, hit_in, Linked, unlinked_node, unlinked_dots};

use geometry::aabb::AABB;
use memory::chain::Chain;
use memory::node::{Node, node_at, set_node};
use memory::places::{id_at, next_at, set_dot, set_next};
use memory::rows::RowsMut;
use model::refusal::Refusal;
use model::{Dot, State};
use tree::find::find_leaf;

// Where a dot stands in its chain: its place, and the place before it, which the first has none of.
#[derive(Clone, Copy)]
pub struct Hit {
    pub place: usize,
    pub previous: Option<usize>,
}

// The first dot with an id in a leaf's chain. A `loop` that a `break` leaves with the place found (§17.4).
fn find_dot(dots: &[u32], leaf: Node, id: u32) -> Option<Hit>
    requires { Searchable dots.now leaf }
    ensures { (chain : List Placed) → Linked dots.now leaf.first leaf.count chain → result ≡ hit_in id None chain }
{
    let mut places = Chain::new(dots, leaf);
    let mut previous = None;
    'search: loop {
        match places.next() {
            None => break None,
            Some(place) if id_at(dots, place) == id => break Some(Hit { place, previous }),
            Some(place) => previous = Some(place),
        }
    }
}

// Takes the dot that was found out of its leaf's chain.
fn unlink(nodes: &mut [u32], dots: &mut [u32], node: usize, leaf: Node, hit: Hit)
    requires { HasNode nodes.old node × (1 ≤ leaf.count) × HasPlace dots.old hit.place
        × IfSome hit.previous (HasPlace dots.old) }
    ensures { (nodes.new ≡ set_node_at nodes.old node (unlinked_node dots.old leaf hit))
        × (dots.new ≡ unlinked_dots dots.old hit) }
{
    let next = next_at(dots, hit.place);
    let count = leaf.count - 1;
    match hit.previous {
        None => set_node(nodes, node, Node { first: next, count }),
        Some(previous) => {
            set_next(dots, previous, next);
            set_node(
                nodes,
                node,
                Node {
                    first: leaf.first,
                    count,
                },
            );
        }
    }
}

// Frees a place: it heads the free places.
fn free_place(dots: &mut [u32], rects: &mut [i32], place: usize, head: u32)
    requires { HasPlace dots.old place × HasRect rects.old place }
    ensures { (dots.new ≡ set_next_at (set_dot_at dots.old place zero_dot) place head)
        × (rects.new ≡ set_rect_at rects.old place zero_dot.rect) }
{
    set_dot(dots, rects, place, Dot::default());
    set_next(dots, place, head);
}

// Removes the first dot with an id in the leaf that a rectangle routes to; the dot's own rectangle isn't compared.
pub fn remove_dot(
    state: State,
    rows: &mut RowsMut<'_>,
    id: u32,
    rect: AABB,
) -> Result<Option<State>, Refusal>
    requires { IsTree state (held_mut rows.old) }
    ensures same_rows { SameRows rows.old rows.new }
    ensures carried_out { CarriedOut (remove_rule id rect) state (held_mut rows.old) (yes_no_state state result)
        (held_mut rows.new) (yes_no_reply result) }
{
    let settings = state.settings;
    let given = rows.shared();
    let node = find_leaf(settings, given.nodes, rect).node;
    let leaf = node_at(given.nodes, node);
    let Some(hit) = find_dot(given.dots, leaf, id) else {
        return Ok(None);
    };
    if !state.can_count(1) {
        return Err(Refusal::TooManyChanges);
    }
    let place = hit.place;
    unlink(rows.nodes, rows.dots, node, leaf, hit);
    free_place(rows.dots, rows.rects, place, state.free_place);
    let next = state.changed(state.free_group, place as u32, state.live - 1);
    Ok(Some(next))
}
