// Remove: the first dot with an id in the leaf that a rectangle routes to.
ghost use Rattle.model.specs.Calls.{Remove};
ghost use Rattle.model.specs.Answers.{yes_no_reply, yes_no_state};
ghost use Rattle.memory.specs.Lent.{held_mut, world_of, SameRows};

use geometry::aabb::AABB;
use memory::rows::RowsMut;
use model::State;
use model::refusal::Refusal;
use tree_check::check::check;
use tree_remove::remove_dot;

pub fn remove(
    state: State,
    rows: &mut RowsMut<'_>,
    marks: &mut [u8],
    id: u32,
    rect: AABB,
) -> Result<Option<State>, Refusal>
    ensures same_rows { SameRows rows.old rows.new }
    ensures obeys { Remove (world_of state (held_mut rows.old) marks.old) id rect
        (world_of (yes_no_state state result) (held_mut rows.new) marks.new) (yes_no_reply result) }
{
    check(state, rows.shared(), marks)?;
    remove_dot(state, rows, id, rect)
}
