// Place: the insert of a ticket's dot, as long as the tree is as it was when the ticket was handed out.
ghost use Rattle.model.specs.Tickets.{Place};
ghost use Rattle.model.specs.Answers.{change_reply, change_state};
ghost use Rattle.memory.specs.Lent.{held_mut, world_of, SameRows};

use memory::rows::RowsMut;
use model::answers::Changed;
use model::refusal::Refusal;
use model::{State, Ticket};
use tree_check::check::check;
use tree_insert::place_dot;

pub fn place(
    state: State,
    rows: &mut RowsMut<'_>,
    marks: &mut [u8],
    ticket: Ticket,
) -> Result<Changed, Refusal>
    ensures same_rows { SameRows rows.old rows.new }
    ensures obeys { Place (world_of state (held_mut rows.old) marks.old) ticket
        (world_of (change_state state result) (held_mut rows.new) marks.new) (change_reply result) }
{
    check(state, rows.shared(), marks)?;
    place_dot(state, rows, ticket)
}
