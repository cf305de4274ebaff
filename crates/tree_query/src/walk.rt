// The walk of a query: it counts the dots that it asks for, lists them as far as there is room, and counts the nodes opened.
ghost use Rattle.std.specs.Prelude.{◌≡◌, ◌<◌};
ghost use Rattle.memory.specs.Lent.{held};
ghost use Rattle.tree_query.specs.Walks.{hits_after, row_with, ChainWalk, NodeWalk, GroupWalk, ChainWalked, NodeWalked, GroupWalked};

use crate::rows::keep;
use geometry::centered_aabb::CenteredAABB;
use geometry::quadrants::Quadrants;
use memory::chain::Chain;
use memory::node::{Node, node_at};
use memory::places::dot_at;
use memory::rows::Rows;
use model::answers::Found;
use model::{Dot, Window};

// Lists a dot where the query asks for it; how many are then listed. A rectangle out of reach needs no closer test.
fn list_dot(query: Window, dot: Dot, hits: u32, row: &mut [u32]) -> u32
    requires { hits < 65536 }
    ensures { (result ≡ hits_after query dot hits) × (row.new ≡ row_with query dot row.old hits) }
{
    let rect = query.rect;
    if !rect.reaches(dot.rect) {
        return hits;
    }
    if !query.is_hit(dot) {
        return hits;
    }
    keep(row, hits as usize, dot.id);
    hits + 1
}

// Lists the dots of a leaf's chain that the query asks for.
fn walk_chain(rows: Rows<'_>, leaf: Node, query: Window, found: Found, row: &mut [u32]) -> Found
    requires { ChainWalk (held rows) found leaf.first leaf.count }
    ensures { ChainWalked query (held rows.entry) row.old found leaf.first leaf.count
        row.new result }
{
    let opened = found.opened;
    let mut hits = found.hits;
    for place in Chain::new(rows.dots, leaf) {
        let dot = dot_at(rows.dots, rows.rects, place);
        hits = list_dot(query, dot, hits, row);
    }
    Found { hits, opened }
}

// A group that is walked: its first node, the levels from there on, the cell above it, and the quadrants of that cell that the query reaches.
#[derive(Clone, Copy)]
struct Group {
    first: usize,
    levels: u32,
    cell: CenteredAABB,
    quadrants: Quadrants,
}

// Opens a node: lists its chain, or hands its group on.
#[cycle(walk_group_walk_node)]
pub fn walk_node(
    rows: Rows<'_>,
    node: usize,
    levels: u32,
    cell: CenteredAABB,
    query: Window,
    found: Found,
    row: &mut [u32],
) -> Found
    requires { NodeWalk cell (held rows) found node levels }
    ensures { NodeWalked query cell (held rows.entry) row.old found node levels
        row.new result }
{
    let words = node_at(rows.nodes, node);
    let opened = Found {
        hits: found.hits,
        opened: found.opened + 1,
    };
    if !words.is_branch() {
        return walk_chain(rows, words, query, opened, row);
    }
    let group = Group {
        first: words.first as usize,
        levels: levels - 1,
        cell,
        quadrants: cell.explore_quadrants(query.rect),
    };
    walk_group(rows, group, query, opened, row)
}

// Hands back the children of a group, those that the query opens, in rising order.
#[cycle(walk_group_walk_node)]
fn walk_group(rows: Rows<'_>, group: Group, query: Window, found: Found, row: &mut [u32]) -> Found
    requires { GroupWalk query group.cell group.quadrants (held rows) found
        group.first group.levels 5 }
    ensures { GroupWalked query group.cell (held rows.entry) row.old found
        group.first group.levels 5 row.new result }
{
    let Group {
        first,
        levels,
        cell,
        quadrants,
    } = group;
    let mut met = found;
    for child in 0..5 {
        if (child == 0) | quadrants.at(child) {
            let below = cell.split(child);
            let at = first + child as usize;
            met = walk_node(rows, at, levels, below, query, met, row);
        }
    }
    met
}
