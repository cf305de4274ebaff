// Leaves: six numbers a leaf, in the order of the walk, children 0 skipped.
ghost use Rattle.std.specs.Prelude.{◌≡◌, ◌+◌, ◌≤◌};
ghost use Rattle.std.proofs.lemmas.List.Edits.{sets};
ghost use Rattle.tree.specs.Operations.{HasTree};
ghost use Rattle.model.specs.Answers.{number_reply};
ghost use Rattle.tree_query.specs.Answers.{LeavesMet, LeavesListed};
ghost use Rattle.tree_query.specs.Leaves.{words_of, LeafWalk, LeafGroup, LeafWalked, LeafGroupWalked};

use crate::rows::keep;
use geometry::node_data::NodeData;
use memory::node::node_at;
use model::State;
use model::refusal::Refusal;

// The six numbers of a leaf: centre, half sizes, depth, count. The position after them.
fn keep_leaf(row: &mut [i32], at: usize, node_data: NodeData, count: u32) -> usize
    requires { (at ≤ 1000000) × (node_data.depth ≤ 255) × (count ≤ 65536) }
    ensures { (result ≡ at + 6) × (row.new ≡ sets row.old at (words_of node_data count)) }
{
    let cell = node_data.cell;
    keep(row, at, cell.center_x);
    keep(row, at + 1, cell.center_y);
    keep(row, at + 2, cell.half_width);
    keep(row, at + 3, cell.half_height);
    keep(row, at + 4, node_data.depth.cast_signed());
    keep(row, at + 5, count.cast_signed());
    at + 6
}

// A node's leaves: its own numbers, or those of its group.
#[cycle(leaf_group_leaf_node)]
fn leaf_node(
    nodes: &[u32],
    node: usize,
    levels: u32,
    node_data: NodeData,
    at: usize,
    row: &mut [i32],
) -> usize
    requires { LeafWalk node_data nodes.now at node levels }
    ensures { LeafWalked node_data nodes.now row.old at node levels row.new result }
{
    let words = node_at(nodes, node);
    if !words.is_branch() {
        return keep_leaf(row, at, node_data, words.count);
    }
    let first = words.first as usize;
    leaf_group(nodes, first, levels - 1, node_data, at, row)
}

// The leaves of the children of a group, in rising order, child 0 skipped.
#[cycle(leaf_group_leaf_node)]
fn leaf_group(
    nodes: &[u32],
    first: usize,
    levels: u32,
    node_data: NodeData,
    at: usize,
    row: &mut [i32],
) -> usize
    requires { LeafGroup node_data nodes.now at first levels 4 }
    ensures { LeafGroupWalked node_data nodes.now row.old at first levels 4 row.new result }
{
    let mut next = at;
    for child in 1..5 {
        let below = node_data.child(child);
        next = leaf_node(nodes, first + child as usize, levels, below, next, row);
    }
    next
}

// The numbers of all leaves, written as far as the row goes; how many numbers there are.
fn list_leaves(state: State, nodes: &[u32], row: &mut [i32]) -> usize
    requires { HasTree state nodes.now }
    ensures { LeavesMet state nodes.now row.old row.new result }
{
    let settings = state.settings;
    let root = NodeData::root(settings);
    let levels = settings.deepest();
    leaf_node(nodes, 0, levels, root, 0, row)
}

// Lists the leaves, where they fit the row: they are counted first.
pub fn leaves_row(state: State, nodes: &[u32], row: &mut [i32]) -> Result<u32, Refusal>
    requires { HasTree state nodes.now }
    ensures { LeavesListed state nodes.now row.old row.new (number_reply result) }
{
    let words = list_leaves(state, nodes, &mut []);
    let number = (words / 6) as u32;
    if row.len() < words {
        return Err(Refusal::ShortRow(number));
    }
    list_leaves(state, nodes, row);
    Ok(number)
}
