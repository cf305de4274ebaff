// Query and collect_ids: the ids of the dots that a window asks for, in the row that the caller lends.
ghost use Rattle.model.specs.Calls.{Query, CollectIds};
ghost use Rattle.model.specs.Answers.{query_reply};
ghost use Rattle.memory.specs.Lent.{held, world_of};

use memory::rows::Rows;
use model::answers::Found;
use model::refusal::Refusal;
use model::{State, Window};
use tree_check::check::check;
use tree_query::query::query_row;

pub fn query(
    state: State,
    rows: Rows<'_>,
    marks: &mut [u8],
    window: Window,
    row: &mut [u32],
) -> Result<Found, Refusal>
    ensures { Query (world_of state (held rows.entry) marks.old) window row.old
        (world_of state (held rows.entry) marks.new) row.new (query_reply result) }
{
    check(state, rows, marks)?;
    query_row(state, rows, window, row)
}

// The original's: a query with the root's rectangle, of all inks.
pub fn collect_ids(
    state: State,
    rows: Rows<'_>,
    marks: &mut [u8],
    row: &mut [u32],
) -> Result<Found, Refusal>
    ensures { CollectIds (world_of state (held rows.entry) marks.old) row.old
        (world_of state (held rows.entry) marks.new) row.new (query_reply result) }
{
    check(state, rows, marks)?;
    let settings = state.settings;
    let window = Window::all_inks(settings.root_rect());
    query_row(state, rows, window, row)
}
