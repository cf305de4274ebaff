// Insert: a dot goes to the leaf that it routes to.
ghost use Rattle.model.specs.Calls.{Insert};
ghost use Rattle.model.specs.Answers.{change_reply, change_state};
ghost use Rattle.memory.specs.Lent.{held_mut, world_of, SameRows};

use memory::rows::RowsMut;
use model::answers::Changed;
use model::refusal::Refusal;
use model::{Dot, State};
use tree_check::check::check;
use tree_insert::insert_dot;

pub fn insert(
    state: State,
    rows: &mut RowsMut<'_>,
    marks: &mut [u8],
    dot: Dot,
) -> Result<Changed, Refusal>
    ensures same_rows { SameRows rows.old rows.new }
    ensures obeys { Insert (world_of state (held_mut rows.old) marks.old) dot
        (world_of (change_state state result) (held_mut rows.new) marks.new) (change_reply result) }
{
    check(state, rows.shared(), marks)?;
    insert_dot(state, rows, dot)
}
