// All without the check: every dot's id, child 0 first at each branch, then the others. No rectangle is read.
#![tactic(auto)]

mod walk;

ghost use Rattle.model.specs.Answers.{number_reply};
ghost use Rattle.tree.specs.Operations.{HasDots};
ghost use Rattle.tree_all.specs.Walks.{AllListed};

use crate::walk::list_node;
use model::State;
use model::refusal::Refusal;

// Lists the ids, where they fit the row: there are as many as dots are live.
pub fn all_row(state: State, nodes: &[u32], dots: &[u32], row: &mut [u32]) -> Result<u32, Refusal>
    requires { HasDots state nodes.now dots.now }
    ensures { AllListed state nodes.now dots.now row.old row.new (number_reply result) }
{
    let live = state.live;
    if row.len() < live as usize {
        return Err(Refusal::ShortRow(live));
    }
    let settings = state.settings;
    let levels = settings.deepest();
    list_node(nodes, dots, 0, levels, 0, row);
    Ok(live)
}
