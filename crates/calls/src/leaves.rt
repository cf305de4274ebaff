// Leaves: six numbers a leaf, in the row that the caller lends.
ghost use Rattle.model.specs.Calls.{Leaves};
ghost use Rattle.model.specs.Answers.{number_reply};
ghost use Rattle.memory.specs.Lent.{held, world_of};

use memory::rows::Rows;
use model::State;
use model::refusal::Refusal;
use tree_check::check::check;
use tree_query::leaves::leaves_row;

pub fn leaves(
    state: State,
    rows: Rows<'_>,
    marks: &mut [u8],
    row: &mut [i32],
) -> Result<u32, Refusal>
    ensures { Leaves (world_of state (held rows.entry) marks.old) row.old
        (world_of state (held rows.entry) marks.new) row.new (number_reply result) }
{
    check(state, rows, marks)?;
    leaves_row(state, rows.nodes, row)
}
