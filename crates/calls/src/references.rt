// References: the dots in all leaves.
ghost use Rattle.model.specs.Calls.{References};
ghost use Rattle.model.specs.Answers.{number_reply};
ghost use Rattle.memory.specs.Lent.{held, world_of};

use memory::rows::Rows;
use model::State;
use model::refusal::Refusal;
use tree_check::check::check;

// The number of dots in all leaves, which the check has found to be the live number.
pub fn references(state: State, rows: Rows<'_>, marks: &mut [u8]) -> Result<u32, Refusal>
    ensures { References (world_of state (held rows.entry) marks.old)
        (world_of state (held rows.entry) marks.new) (number_reply result) }
{
    check(state, rows, marks)?;
    Ok(state.live)
}
