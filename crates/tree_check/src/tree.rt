// The tree below a node: the walk of a node calls that of its group, which calls that of each child.
ghost use Rattle.std.specs.Prelude.{◌*◌, ◌≤◌};
ghost use Rattle.memory.specs.Lent.{held, groups_held};
ghost use Rattle.tree_check.specs.Marks.{WalkReady};
ghost use Rattle.tree_check.specs.Trees.{TreeScanned, GroupReady, GroupScanned, Sound};

use crate::chain::check_chain;
use crate::free::{group_at, is_empty};
use crate::marks::mark;
use crate::region::Region;
use memory::node::node_at;
use memory::rows::Rows;

// Whether a tree as it should be stands at the node, of which nothing was marked; marks what it meets.
#[cycle(check_group_check_node)]
pub fn check_node(rows: Rows<'_>, marks: &mut [u8], region: Region, node: usize) -> bool
    requires { WalkReady (held rows) marks.old × Sound region × (node ≤ 5 * groups_held (held rows)) }
    ensures { TreeScanned region (held rows.entry) marks.old node marks.new result }
{
    let words = node_at(rows.nodes, node);
    let splits = region.may_split();
    if words.is_branch() {
        if !splits {
            return false;
        }
        let Some(group) = group_at(rows, words.first) else {
            return false;
        };
        if !mark(marks, rows.places() + group) {
            return false;
        }
        check_group(rows, marks, region, group)
    } else {
        if splits & (words.count > region.settings.leaf_limit) {
            return false;
        }
        check_chain(rows, marks, |dot| region.fits(dot), words)
    }
}

// The same of the children of a group, whose parent stands in the region, from the last. An empty leaf has nothing to check.
#[cycle(check_group_check_node)]
fn check_group(rows: Rows<'_>, marks: &mut [u8], region: Region, group: usize) -> bool
    requires { WalkReady (held rows) marks.old × GroupReady region (held rows) group }
    ensures { GroupScanned region (held rows.entry) marks.old group 5 marks.new result }
{
    for child in (0..5).rev() {
        let node = 1 + 5 * group + child as usize;
        if is_empty(rows.nodes, node) {
            continue;
        }
        let below = region.below(child);
        if !check_node(rows, marks, below, node) {
            return false;
        }
    }
    true
}
