// The splits that the dots of a tint patch make together, counted without a store.
// A cell is counted by the dots within its bounds: those of the leaf that it is, or would lie below, and those of the patch.
ghost use Rattle.std.specs.Prelude.{◌≡◌, cond, ◌+◌, ◌≤◌, ◌<◌, eqb};
ghost use Rattle.geometry.specs.Cells.{InRange};
ghost use Rattle.model.specs.Layout.{branch_mark};
ghost use Rattle.memory.specs.Lent.{held};
ghost use Rattle.memory.specs.Rows.{HasNode};
ghost use Rattle.tree.specs.Operations.{IsTree};
ghost use Rattle.tree_patch.specs.Cells.{cell_below};
ghost use Rattle.tree_patch.specs.Counts.{Filled, FullTold, CellCount, CellCounted, GroupCount, GroupCounted, AllAcceptable, PatchCounted};

use geometry::bounds::Bounds;
use geometry::node_data::NodeData;
use geometry::settings::Settings;
use memory::node::{Node, node_at};
use memory::rows::Rows;
use model::State;
use tint::sums::TiledPatch;
use tree_insert::needed::count_within;

// A cell that dots may fill: its node, or that of the leaf that it would lie below, and what a walk knows there.
#[derive(Clone, Copy)]
pub struct Cell {
    pub node: usize,
    pub node_data: NodeData,
    pub bounds: Bounds,
    // How many levels may still be split from here on.
    pub levels: u32,
}

// A child's node: a branch has one for it, a leaf has none yet.
fn child_node(words: Node, node: usize, child: u32) -> usize
    ensures { result ≡ cond (eqb words.count branch_mark) (words.first + child) node }
{
    if !words.is_branch() {
        return node;
    }
    words.first as usize + child as usize
}

// A child's cell.
fn child_cell(nodes: &[u32], cell: Cell, child: u32) -> Cell
    requires { HasNode nodes.now cell.node × InRange cell.node_data.cell × (cell.node_data.depth < 255) × (1 ≤ cell.levels) }
    ensures { result ≡ cell_below nodes.now cell child }
{
    let words = node_at(nodes, cell.node);
    let node = child_node(words, cell.node, child);
    let above = cell.node_data;
    let node_data = above.child(child);
    let bounds = cell.bounds.below(above.cell, child);
    Cell {
        node,
        node_data,
        bounds,
        levels: cell.levels - 1,
    }
}

// Whether a leaf's cell may split and would hold more dots than the leaf limit, with so many of the patch.
fn is_overfull(settings: Settings, rows: Rows<'_>, chain: Node, cell: Cell, laid: u32) -> bool
    requires { Filled (held rows) chain laid }
    ensures { FullTold settings (held rows.entry) chain cell laid result }
{
    let node_data = cell.node_data;
    if !node_data.can_split_further(settings.smallest_cell, settings.depth_limit) {
        return false;
    }
    let held = laid + count_within(rows, chain, cell.bounds);
    settings.leaf_limit < held
}

// The splits at a cell and below it.
#[cycle(cell_splits_group_splits)]
fn cell_splits(settings: Settings, rows: Rows<'_>, cell: Cell, tiled: &TiledPatch<'_>) -> u32
    requires { CellCount settings (held rows) cell tiled.now.patch }
    ensures { CellCounted settings (held rows.entry) cell tiled.now.patch result }
{
    let laid = tiled.dots_within(cell.bounds);
    if laid == 0 {
        return 0;
    }
    let words = node_at(rows.nodes, cell.node);
    if words.is_branch() {
        return group_splits(settings, rows, cell, tiled);
    }
    if !is_overfull(settings, rows, words, cell, laid) {
        return 0;
    }
    1 + group_splits(settings, rows, cell, tiled)
}

// Those at the children but child 0, and below them.
#[cycle(cell_splits_group_splits)]
fn group_splits(settings: Settings, rows: Rows<'_>, cell: Cell, tiled: &TiledPatch<'_>) -> u32
    requires { GroupCount settings (held rows) cell 4 tiled.now.patch }
    ensures { GroupCounted settings (held rows.entry) cell 4 tiled.now.patch result }
{
    let mut splits = 0;
    for child in 1..5 {
        let below = child_cell(rows.nodes, cell, child);
        splits += cell_splits(settings, rows, below, tiled);
    }
    splits
}

// The splits that all dots of a patch make together, where insert accepts their rectangles.
pub fn patch_splits(state: State, rows: Rows<'_>, tiled: &TiledPatch<'_>) -> u32
    requires { IsTree state (held rows) × AllAcceptable state.settings tiled.now.patch }
    ensures { PatchCounted state (held rows.entry) tiled.now.patch result }
{
    let settings = state.settings;
    let node_data = NodeData::root(settings);
    let bounds = Bounds::all();
    let levels = settings.deepest();
    let root = Cell {
        node: 0,
        node_data,
        bounds,
        levels,
    };
    cell_splits(settings, rows, root, tiled)
}
