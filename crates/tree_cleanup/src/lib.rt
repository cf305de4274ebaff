// Cleanup, without the check: each branch whose five children are empty becomes an empty leaf, one level a call.
#![tactic(auto)]

ghost use Rattle.std.specs.Prelude.{◌≡◌, ◌+◌};
ghost use Rattle.memory.specs.Rows.{HasNode};
ghost use Rattle.tree.specs.Operations.{HasTree};
ghost use Rattle.tree_cleanup.specs.Answers.{CleanedUp};
ghost use Rattle.tree_cleanup.specs.EmptyBranches.{empty_branch, Searchable, Searched};
ghost use Rattle.tree_cleanup.specs.Walks.{HasGroup, empty_group, turned_nodes, NodeToClean, NodeCleaned, GroupToClean, GroupCleaned};

use memory::lengths::groups_in;
use memory::node::{Node, node_at, set_node};
use model::State;
use model::refusal::Refusal;

// The head of the free groups, and how many branches were turned.
#[derive(Clone, Copy)]
pub struct Swept {
    pub head: u32,
    pub turned: u32,
}

// Whether the five nodes of a group are empty.
fn is_empty_group(nodes: &[u32], first: usize) -> bool
    requires { HasGroup nodes.now first }
    ensures { result ≡ empty_group nodes.now first }
{
    (0..5).all(|child| node_at(nodes, first + child).count == 0)
}

// Whether a node is a branch whose five children are empty.
fn is_empty_branch(nodes: &[u32], node: usize) -> bool
    requires { HasNode nodes.now node × Searchable nodes.now }
    ensures { result ≡ empty_branch nodes.now node }
{
    let words = node_at(nodes, node);
    if !words.is_branch() {
        return false;
    }
    let first = words.first as usize;
    is_empty_group(nodes, first)
}

// Whether the row has such a branch, in the tree: a node of a free group is no branch.
fn has_empty_branch(nodes: &[u32]) -> bool
    requires { Searchable nodes.now }
    ensures { Searched nodes.now result }
{
    let count = 1 + 5 * groups_in(nodes);
    (0..count).any(|node| is_empty_branch(nodes, node))
}

// Turns a branch into an empty leaf; its group heads the free groups.
fn turn(nodes: &mut [u32], node: usize, first: usize, head: u32)
    requires { HasNode nodes.old node × HasNode nodes.old first }
    ensures { nodes.new ≡ turned_nodes nodes.old node first head }
{
    set_node(nodes, node, Node::empty_leaf());
    set_node(
        nodes,
        first,
        Node {
            first: head,
            count: 0,
        },
    );
}

// A node: a branch with five empty children is turned, any other hands its group on.
#[cycle(clean_group_clean_node)]
fn clean_node(nodes: &mut [u32], swept: Swept, node: usize, levels: u32) -> Swept
    requires { NodeToClean nodes.old swept node levels }
    ensures { NodeCleaned nodes.old swept node levels nodes.new result }
{
    let words = node_at(nodes, node);
    if !words.is_branch() {
        return swept;
    }
    let first = words.first as usize;
    if is_empty_group(nodes, first) {
        turn(nodes, node, first, swept.head);
        return Swept {
            head: words.first,
            turned: swept.turned + 1,
        };
    }
    clean_group(nodes, swept, first, levels - 1)
}

// A group hands back its five children, the last first.
#[cycle(clean_group_clean_node)]
fn clean_group(nodes: &mut [u32], swept: Swept, first: usize, levels: u32) -> Swept
    requires { GroupToClean nodes.old swept first levels 5 }
    ensures { GroupCleaned nodes.old swept first levels 5 nodes.new result }
{
    let mut next = swept;
    for child in (0..5).rev() {
        next = clean_node(nodes, next, first + child, levels);
    }
    next
}

// Cleans up the tree: whether a branch was turned, and the state after it. Where no change more can be counted, nothing is stored.
pub fn cleanup_tree(state: State, nodes: &mut [u32]) -> Result<Option<State>, Refusal>
    requires { HasTree state nodes.old }
    ensures { CleanedUp state nodes.old nodes.new result }
{
    if !state.can_count(1) {
        if has_empty_branch(nodes) {
            return Err(Refusal::TooManyChanges);
        }
        return Ok(None);
    }
    let settings = state.settings;
    let levels = settings.deepest();
    let start = Swept {
        head: state.free_group,
        turned: 0,
    };
    let swept = clean_node(nodes, start, 0, levels);
    if swept.turned == 0 {
        return Ok(None);
    }
    let next = state.changed(swept.head, state.free_place, state.live);
    Ok(Some(next))
}
