// What an insert needs before it stores anything: the splits, with a free group for each.
ghost use Rattle.std.specs.Prelude.{◌≡◌, ◌&&◌, leb};
ghost use Rattle.geometry.specs.Cells.{may_split};
ghost use Rattle.memory.specs.Lent.{held};
ghost use Rattle.tree_insert.specs.FreeGroups.{SomeFree};
ghost use Rattle.tree_insert.specs.SplitsNeeded.{SomeChain, CountedWithin, Countable, SplitsTold};

use geometry::aabb::AABB;
use geometry::bounds::Bounds;
use geometry::node_data::NodeData;
use geometry::settings::Settings;
use memory::chain::Chain;
use memory::node::{Node, node_at};
use memory::places::rect_at;
use memory::rows::Rows;
use model::State;

// Whether a leaf with so many dots is full and may split.
pub fn must_split(settings: Settings, node_data: NodeData, count: u32) -> bool
    ensures { result ≡ may_split settings node_data && leb settings.leaf_limit count }
{
    node_data.can_split_further(settings.smallest_cell, settings.depth_limit)
        & (settings.leaf_limit <= count)
}

// How many dots of a chain lie within bounds.
pub fn count_within(rows: Rows<'_>, chain: Node, bounds: Bounds) -> u32
    requires { SomeChain (held rows) chain }
    ensures { CountedWithin (held rows.entry) chain bounds result }
{
    let mut count: u32 = 0;
    for place in Chain::new(rows.dots, chain) {
        count += u32::from(bounds.holds(rect_at(rows.rects, place)));
    }
    count
}

// The splits that the insert of a rectangle at a leaf makes, where there is a free group for each; none where a split finds no free group.
// A dot stays on the way as long as it lies within the bounds of the node reached. A `while`: a leaf that is not full ends it, not a number of turns.
pub fn splits_needed(
    state: State,
    rows: Rows<'_>,
    chain: Node,
    node_data: NodeData,
    rect: AABB,
) -> Option<u32>
    requires { Countable state.settings (held rows) chain node_data × SomeFree rows.nodes.now state.free_group }
    ensures { SplitsTold state.settings (held rows.entry) chain node_data rect state.free_group result }
{
    let settings = state.settings;
    let mut group = state.free_group;
    let mut reached = node_data;
    let mut bounds = Bounds::all();
    let mut count = chain.count;
    let mut splits: u32 = 0;
    'descent: while must_split(settings, reached, count) {
        if group == Node::NONE {
            return None;
        }
        group = node_at(rows.nodes, group as usize).first;
        let cell = reached.cell;
        let child = cell.route(rect);
        bounds = bounds.below(cell, child);
        reached = reached.child(child);
        count = count_within(rows, chain, bounds);
        splits += 1;
    }
    Some(splits)
}
