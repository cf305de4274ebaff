// Splits: a full leaf becomes a branch on a free group, and its chain is dealt to the children.
ghost use Rattle.std.specs.Prelude.{◌≡◌, ◌+◌, ◌<◌};
ghost use Rattle.model.specs.Memory.{first_at, count_at};
ghost use Rattle.model.specs.Layout.{branch_mark};
ghost use Rattle.memory.specs.Nodes.{empty_leaf};
ghost use Rattle.memory.specs.Rows.{HasNode, HasPlace, set_node_at, set_next_at};
ghost use Rattle.tree_insert.specs.Deal.{Dealable, Dealt};
ghost use Rattle.tree_insert.specs.LeafSplit.{Splittable, Split};
ghost use Rattle.tree_insert.specs.SplitDown.{CanSplitDown, SplitsDone};

use geometry::aabb::AABB;
use geometry::centered_aabb::CenteredAABB;
use memory::node::{Node, node_at, set_node};
use memory::places::{next_at, rect_at, set_next};
use tree::find::Leaf;

// Puts a place at the head of a leaf's chain.
pub fn push_place(nodes: &mut [u32], dots: &mut [u32], node: usize, place: u32)
    requires { HasNode nodes.old node × HasPlace dots.old place × (count_at nodes.old node < 4294967295) }
    ensures { (nodes.new ≡ set_node_at nodes.old node
        (record { first = place; count = count_at nodes.old node + 1 }))
        × (dots.new ≡ set_next_at dots.old place (first_at nodes.old node)) }
{
    let leaf = node_at(nodes, node);
    set_next(dots, place as usize, leaf.first);
    set_node(
        nodes,
        node,
        Node {
            first: place,
            count: leaf.count + 1,
        },
    );
}

// Makes a leaf a branch on the group at the head of the free groups, whose first node becomes an empty leaf; the next head.
fn take_group(nodes: &mut [u32], node: usize, group: u32) -> u32
    requires { HasNode nodes.old node × HasNode nodes.old group }
    ensures { (result ≡ first_at nodes.old group)
        × (nodes.new ≡ set_node_at (set_node_at nodes.old node (record { first = group; count = branch_mark })) group empty_leaf) }
{
    let next = node_at(nodes, group as usize).first;
    set_node(
        nodes,
        node,
        Node {
            first: group,
            count: Node::BRANCH,
        },
    );
    set_node(nodes, group as usize, Node::empty_leaf());
    next
}

// Deals a chain to the five leaves of a group (§5.2): from its head on, each dot becomes the head of its child's chain.
// The rectangles are lent for reading, by their type: with a RowsMut each clause here would have to say that they stay.
fn deal_chain(
    nodes: &mut [u32],
    dots: &mut [u32],
    rects: &[i32],
    cell: CenteredAABB,
    chain: Node,
    group: u32,
)
    requires { Dealable nodes.old dots.old rects.now group chain.first chain.count }
    ensures { Dealt nodes.old dots.old rects.now cell group chain.first chain.count nodes.new
        dots.new }
{
    let first = group as usize;
    let mut at = chain.first;
    for _ in 0..chain.count {
        let place = at as usize;
        let next = next_at(dots, place);
        let child = cell.route(rect_at(rects, place)) as usize;
        push_place(nodes, dots, first + child, at);
        at = next;
    }
}

// Splits a leaf on the group at the head of the free groups; the next head.
fn split_leaf(
    nodes: &mut [u32],
    dots: &mut [u32],
    rects: &[i32],
    node: usize,
    cell: CenteredAABB,
    group: u32,
) -> u32
    requires { Splittable nodes.old dots.old rects.now node group }
    ensures { Split nodes.old dots.old rects.now node cell group nodes.new dots.new result }
{
    let chain = node_at(nodes, node);
    let next = take_group(nodes, node, group);
    deal_chain(nodes, dots, rects, cell, chain, group);
    next
}

// The leaf's node that the splits lead to, and the head of the free groups then.
#[derive(Clone, Copy)]
pub struct Reached {
    pub node: usize,
    pub group: u32,
}

// Makes the splits on a rectangle's way from a leaf down.
pub fn split_down(
    nodes: &mut [u32],
    dots: &mut [u32],
    rects: &[i32],
    leaf: Leaf,
    group: u32,
    splits: u32,
    rect: AABB,
) -> Reached
    requires { CanSplitDown rect nodes.old dots.old rects.now group leaf splits }
    ensures { SplitsDone rect nodes.old dots.old rects.now group leaf splits nodes.new
        dots.new result }
{
    let mut node = leaf.node;
    let mut node_data = leaf.node_data;
    let mut head = group;
    for _ in 0..splits {
        let cell = node_data.cell;
        let next = split_leaf(nodes, dots, rects, node, cell, head);
        let child = cell.route(rect);
        node = head as usize + child as usize;
        node_data = node_data.child(child);
        head = next;
    }
    Reached { node, group: head }
}
