// The fresh tree (§2.11): an empty root, and free lists of all groups and all places in rising order.
ghost use Rattle.std.specs.Prelude.{◌≡◌, true, cond, ◌+◌, ◌*◌, ◌≤◌, ◌<◌, eqb, length};
ghost use Rattle.geometry.specs.Settings.{in_range};
ghost use Rattle.model.specs.Shapes.{fresh};
ghost use Rattle.model.specs.Layout.{dots_for, none, groups_in, places_in, layout};
ghost use Rattle.memory.specs.Lengths.{lengths_fit};
ghost use Rattle.memory.specs.Lent.{held_mut, world_of, SameRows};
ghost use Rattle.memory.specs.Fresh.{fresh_node, fresh_next, fresh_state, FreshNodes, FreshPlaces};

use crate::lengths::{groups_in, places_in};
use crate::marks::clear_marks;
use crate::node::{Node, set_node};
use crate::places::{set_dot, set_next};
use crate::rows::RowsMut;
use geometry::settings::Settings;
use model::{Dot, State};

// A fresh node's words: an empty leaf, save that a group's first node names the next group's.
#[tactic(auto, unfolding(crate::specs::Fresh::fresh_node))]
fn fresh_node(groups: usize, node: usize) -> Node
    requires { (groups ≤ 16384) × (node < 1 + 5 * groups) }
    ensures { result ≡ fresh_node groups node }
{
    if (node % 5 == 1) & (node + 5 <= 5 * groups) {
        Node {
            first: (node + 5) as u32,
            count: 0,
        }
    } else {
        Node::empty_leaf()
    }
}

// The place after a fresh place, or none.
#[tactic(auto, unfolding(crate::specs::Fresh::fresh_next, model::specs::Layout::none))]
fn fresh_next(places: usize, place: usize) -> u32
    requires { (places ≤ 65536) × (place < places) }
    ensures { result ≡ fresh_next places place }
{
    if place + 1 < places {
        (place + 1) as u32
    } else {
        Node::NONE
    }
}

fn make_nodes(nodes: &mut [u32], groups: usize)
    requires { (groups ≤ 16384) × (length nodes.old ≡ 2 * (1 + 5 * groups)) }
    ensures { FreshNodes groups nodes.new }
{
    for node in 0..1 + 5 * groups {
        set_node(nodes, node, fresh_node(groups, node));
    }
}

fn make_places(dots: &mut [u32], rects: &mut [i32], places: usize)
    requires { (places ≤ 65536) × (length dots.old ≡ dots_for places) × (length rects.old ≡ 4 * places) }
    ensures { FreshPlaces places dots.new rects.new }
{
    for place in 0..places {
        set_dot(dots, rects, place, Dot::default());
        set_next(dots, place, fresh_next(places, place));
    }
}

// The head of a free list: none where there is nothing to list.
#[tactic(auto, unfolding(model::specs::Layout::none))]
fn head(count: usize, first: u32) -> u32
    ensures { result ≡ cond (eqb count 0) none first }
{
    if count == 0 { Node::NONE } else { first }
}

// The state of the fresh tree.
#[tactic(auto, unfolding(crate::specs::Fresh::fresh_state))]
fn fresh_state(settings: Settings, groups: usize, places: usize) -> State
    ensures { result ≡ fresh_state settings groups places }
{
    State {
        settings,
        free_group: head(groups, 1),
        free_place: head(places, 0),
        live: 0,
        changes: 0,
    }
}

// Writes the fresh tree, whatever the rows held; its state.
pub fn make_fresh(settings: Settings, rows: &mut RowsMut<'_>, marks: &mut [u8]) -> State
    requires { (lengths_fit (length rows.old.nodes.now) (length rows.old.dots.now) (length rows.old.rects.now) (length marks.old) ≡ true)
        × (in_range settings ≡ true) }
    ensures same_rows { SameRows rows.old rows.new }
    ensures fresh { world_of result (held_mut rows.new) marks.new ≡ layout
        (fresh settings (groups_in (length rows.old.nodes.now)) (places_in (length rows.old.dots.now))) }
{
    let given = rows.shared();
    let groups = groups_in(given.nodes);
    let places = places_in(given.dots);
    make_nodes(rows.nodes, groups);
    make_places(rows.dots, rows.rects, places);
    clear_marks(marks);
    fresh_state(settings, groups, places)
}
