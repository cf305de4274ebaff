// All: every dot's id, in the row that the caller lends.
ghost use Rattle.model.specs.Calls.{All};
ghost use Rattle.model.specs.Answers.{number_reply};
ghost use Rattle.memory.specs.Lent.{held, world_of};

use memory::rows::Rows;
use model::State;
use model::refusal::Refusal;
use tree_all::all_row;
use tree_check::check::check;

pub fn all(state: State, rows: Rows<'_>, marks: &mut [u8], row: &mut [u32]) -> Result<u32, Refusal>
    ensures { All (world_of state (held rows.entry) marks.old) row.old
        (world_of state (held rows.entry) marks.new) row.new (number_reply result) }
{
    check(state, rows, marks)?;
    all_row(state, rows.nodes, rows.dots, row)
}
