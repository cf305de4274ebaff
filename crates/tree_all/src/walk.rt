// The walk of all: it writes the ids of a chain, a node, a group, from a position of the row on, and tells the position after them.
ghost use Rattle.tree_all.specs.Walks.{ChainList, ChainListed, NodeList, NodeListed, GroupList, GroupListed};

use memory::chain::Chain;
use memory::node::{Node, node_at};
use memory::places::id_at;

// The ids of a leaf's chain.
fn list_chain(dots: &[u32], leaf: Node, start: usize, row: &mut [u32]) -> usize
    requires { ChainList dots.now row.old start leaf.first leaf.count }
    ensures { ChainListed dots.now row.old start leaf.first leaf.count row.new result }
{
    for (i, place) in Chain::new(dots, leaf).enumerate() {
        row[start + i] = id_at(dots, place);
    }
    start + leaf.count as usize
}

// A node's ids: those of its chain, or of its group.
#[cycle(list_group_list_node)]
pub fn list_node(
    nodes: &[u32],
    dots: &[u32],
    node: usize,
    levels: u32,
    at: usize,
    row: &mut [u32],
) -> usize
    requires { NodeList nodes.now dots.now row.old at node levels }
    ensures { NodeListed nodes.now dots.now row.old at node levels row.new result }
{
    let words = node_at(nodes, node);
    if !words.is_branch() {
        return list_chain(dots, words, at, row);
    }
    let first = words.first as usize;
    list_group(nodes, dots, first, levels - 1, at, row)
}

// The ids of a group's five children, in rising order.
#[cycle(list_group_list_node)]
fn list_group(
    nodes: &[u32],
    dots: &[u32],
    first: usize,
    levels: u32,
    at: usize,
    row: &mut [u32],
) -> usize
    requires { GroupList nodes.now dots.now row.old at first levels 5 }
    ensures { GroupListed nodes.now dots.now row.old at first levels 5 row.new result }
{
    let mut next = at;
    for child in 0..5 {
        next = list_node(nodes, dots, first + child, levels, next, row);
    }
    next
}
