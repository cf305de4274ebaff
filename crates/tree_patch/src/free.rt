// Whether groups enough are free.
ghost use Rattle.std.specs.Prelude.{◌≡◌, List, ℕ, leb, length};
ghost use Rattle.tree_insert.specs.FreeGroups.{FreeIn, SomeFree};

use memory::node::{Node, node_at};

// Whether at least so many groups are free, from the head `group` on. No more links are followed.
pub fn has_free(nodes: &[u32], group: u32, number: u32) -> bool
    requires { SomeFree nodes.now group }
    ensures { (free : List ℕ) → FreeIn nodes.now group free → result ≡ leb number (length free) }
{
    let mut at = group;
    for _ in 0..number {
        if at == Node::NONE {
            return false;
        }
        at = node_at(nodes, at as usize).first;
    }
    true
}
