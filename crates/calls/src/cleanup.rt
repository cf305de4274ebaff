// Cleanup: branches with five empty children become empty leaves, one level a call.
ghost use Rattle.model.specs.Layout.{world};
ghost use Rattle.model.specs.Calls.{Cleanup};
ghost use Rattle.model.specs.Answers.{yes_no_reply, yes_no_state};

use memory::rows::Rows;
use model::State;
use model::refusal::Refusal;
use tree_check::check::check;
use tree_cleanup::cleanup_tree;

// Dots and rectangles are lent for reading only, as the host lends them: no RowsMut.
pub fn cleanup(
    state: State,
    nodes: &mut [u32],
    dots: &[u32],
    rects: &[i32],
    marks: &mut [u8],
) -> Result<Option<State>, Refusal>
    ensures { Cleanup (world state nodes.old dots.now rects.now marks.old)
        (world (yes_no_state state result) nodes.new dots.now rects.now marks.new) (yes_no_reply result) }
{
    check(state, Rows { nodes, dots, rects }, marks)?;
    cleanup_tree(state, nodes)
}
