// The whole check.
ghost use Rattle.model.specs.Refusals.{refusal_number};
ghost use Rattle.memory.specs.Lent.{held, world_of};
ghost use Rattle.tree_check.specs.Checks.{CheckReady, Decided, Checked};

use crate::chain::check_chain;
use crate::free::check_free;
use crate::marks::all_marked;
use crate::region::{Region, is_blank};
use crate::tree::check_node;
use memory::lengths::lengths_fit;
use memory::marks::clear_marks;
use memory::node::Node;
use memory::rows::Rows;
use model::State;
use model::refusal::Refusal;

// Whether the memory, whose marks are 0, is a tree; leaves marks behind.
fn is_tree(state: State, rows: Rows<'_>, marks: &mut [u8]) -> bool
    requires { CheckReady state (held rows) marks.old }
    ensures { Decided (world_of state (held rows.entry) marks.old) result }
{
    let places = rows.places();
    let live = state.live as usize;
    if live > places {
        return false;
    }
    let root = Region::root(state.settings);
    if !check_node(rows, marks, root, 0) {
        return false;
    }
    if !check_free(rows, marks, state.free_group) {
        return false;
    }
    let count = (places - live) as u32;
    let free = Node {
        first: state.free_place,
        count,
    };
    if !check_chain(rows, marks, is_blank, free) {
        return false;
    }
    all_marked(marks)
}

// Refusals 1 to 3 of every call, in this order (§11.3).
// Writes the marks alone: 0 everywhere, but for 1 and 2, which leave them as they were.
pub fn check(state: State, rows: Rows<'_>, marks: &mut [u8]) -> Result<(), Refusal>
    ensures { Checked state (held rows.entry) marks.old marks.new (refusal_number result) }
{
    if !lengths_fit(
        rows.nodes.len(),
        rows.dots.len(),
        rows.rects.len(),
        marks.len(),
    ) {
        return Err(Refusal::BadLengths);
    }
    if !state.settings.in_range() {
        return Err(Refusal::BadSettings);
    }
    clear_marks(marks);
    let tree = is_tree(state, rows, marks);
    clear_marks(marks);
    if tree { Ok(()) } else { Err(Refusal::NoTree) }
}
