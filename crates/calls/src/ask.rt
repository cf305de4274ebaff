// Ask: what the insert of a dot would do, and a ticket for it.
ghost use Rattle.model.specs.Tickets.{Ask};
ghost use Rattle.model.specs.Answers.{ask_reply};
ghost use Rattle.memory.specs.Lent.{held, world_of};

use memory::rows::Rows;
use model::answers::Asked;
use model::refusal::Refusal;
use model::{Dot, State};
use tree_check::check::check;
use tree_insert::ask::ask_dot;

pub fn ask(state: State, rows: Rows<'_>, marks: &mut [u8], dot: Dot) -> Result<Asked, Refusal>
    ensures { Ask (world_of state (held rows.entry) marks.old) dot
        (world_of state (held rows.entry) marks.new) (ask_reply result) }
{
    check(state, rows, marks)?;
    ask_dot(state, rows, dot)
}
