// Ask without the check (§21.3): what an insert would do, and a ticket for it. Nothing is stored.
ghost use Rattle.model.specs.Tickets.{ask_rule};
ghost use Rattle.model.specs.Answers.{ask_reply};
ghost use Rattle.memory.specs.Lent.{held};
ghost use Rattle.tree.specs.Operations.{IsTree, CarriedOut};

use crate::landing::land;
use memory::rows::Rows;
use model::answers::Asked;
use model::refusal::Refusal;
use model::{Dot, State, Ticket};

// The refusal of the insert, or its splits and the ticket.
pub fn ask_dot(state: State, rows: Rows<'_>, dot: Dot) -> Result<Asked, Refusal>
    requires { IsTree state (held rows) }
    ensures { CarriedOut (ask_rule dot) state (held rows.entry) state (held rows.entry) (ask_reply result) }
{
    let changes = state.changes;
    let splits = land(state, rows, dot)?.splits;
    let ticket = Ticket { dot, changes };
    Ok(Asked { splits, ticket })
}
