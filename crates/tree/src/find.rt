// The way from the root down to a leaf.
ghost use Rattle.tree.specs.Routes.{Way, LeadsTo};

use geometry::aabb::AABB;
use geometry::node_data::NodeData;
use geometry::settings::Settings;
use memory::node::node_at;

// A leaf: the number of its node, and what a walk knows there.
#[derive(Clone, Copy)]
pub struct Leaf {
    pub node: usize,
    pub node_data: NodeData,
}

// The leaf that a rectangle routes to. A `while`: the way down counts nothing, and a leaf ends it.
pub fn find_leaf(settings: Settings, nodes: &[u32], rect: AABB) -> Leaf
    requires { Way settings nodes.now }
    ensures { LeadsTo settings nodes.now rect result }
{
    let mut node: usize = 0;
    let mut data = NodeData::root(settings);
    let mut words = node_at(nodes, node);
    while words.is_branch() {
        let cell = data.cell;
        let child = cell.route(rect);
        node = words.first as usize + child as usize;
        data = data.toward(rect, child);
        words = node_at(nodes, node);
    }
    Leaf {
        node,
        node_data: data,
    }
}
