// Query: the ids of the dots that a window asks for, and the nodes opened.
ghost use Rattle.model.specs.Answers.{query_reply};
ghost use Rattle.memory.specs.Lent.{held};
ghost use Rattle.tree.specs.Operations.{IsTree};
ghost use Rattle.tree_query.specs.Answers.{Met, Counted, Queried};

use crate::walk::walk_node;
use geometry::centered_aabb::CenteredAABB;
use memory::rows::Rows;
use model::answers::Found;
use model::refusal::Refusal;
use model::{State, Window};

// Walks the whole tree; ids are written as far as the row goes.
fn list_hits(state: State, rows: Rows<'_>, query: Window, row: &mut [u32]) -> Found
    requires { IsTree state (held rows) }
    ensures { Met state query (held rows.entry) row.old row.new result }
{
    let settings = state.settings;
    let cell = CenteredAABB::root(settings);
    let levels = settings.deepest();
    let found = Found { hits: 0, opened: 0 };
    walk_node(rows, 0, levels, cell, query, found, row)
}

// How many dots the query lists, and the nodes opened.
pub fn count_hits(state: State, rows: Rows<'_>, query: Window) -> Found
    requires { IsTree state (held rows) }
    ensures { Counted state query (held rows.entry) result }
{
    list_hits(state, rows, query, &mut [])
}

// Lists the ids, where they fit the row. Where it has a word for each live dot, one walk serves.
pub fn query_row(
    state: State,
    rows: Rows<'_>,
    query: Window,
    row: &mut [u32],
) -> Result<Found, Refusal>
    requires { IsTree state (held rows) }
    ensures { Queried state query (held rows.entry) row.old row.new (query_reply result) }
{
    let room = row.len();
    if room < state.live as usize {
        let hits = count_hits(state, rows, query).hits;
        if room < hits as usize {
            return Err(Refusal::ShortRow(hits));
        }
    }
    Ok(list_hits(state, rows, query, row))
}
