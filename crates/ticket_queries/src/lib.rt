// The calls of a ticket that only read the tree: a query, and the report of a grid. Each is made, and its answer written.
#![tactic(auto)]

ghost use Rattle.std.specs.Prelude.{◌+◌, ◌*◌, ◌≤◌, length};
ghost use Rattle.memory.specs.Lent.{held, world_of};
ghost use Rattle.lines.specs.Reading.{output};
ghost use Rattle.ticket.specs.Ticket.{QueryLine};
ghost use Rattle.ticket.specs.Report.{GridAnswered};

use calls::query::query;
use calls::report::grid_report;
use grid::grid::Grid;
use lines::answer::{answer_query, answer_refusal};
use lines::report::answer_report;
use memory::rows::Rows;
use model::{State, Window};
use ticket::Step;

pub fn answer_listing(
    state: State,
    rows: Rows<'_>,
    marks: &mut [u8],
    window: Window,
    row: &mut [u32],
    out: &mut [u8],
) -> Step<State>
    requires { 24 + 11 * length row.old ≤ length out.old }
    ensures next_in_bounds { result.next ≤ length out.new }
    ensures query_line { QueryLine (world_of state (held rows.entry) marks.old) window
        row.old (world_of result.state (held rows.entry) marks.new) row.new
        (output out.old out.new result.next) }
{
    match query(state, rows, marks, window, row) {
        Err(refusal) => {
            let next = answer_refusal(out, refusal);
            Step { state, next }
        }
        Ok(found) => {
            let next = answer_query(out, found.opened, found.hits, row);
            Step { state, next }
        }
    }
}

// The report of a grid, or its refusal. Answers where the bytes end.
pub fn answer_grid(
    state: State,
    rows: Rows<'_>,
    marks: &mut [u8],
    grid: Grid,
    row: &mut [u32],
    out: &mut [u8],
) -> usize
    requires { 24 + 17 * length row.old ≤ length out.old }
    ensures upper_bound { result ≤ length out.new }
    ensures grid_answered { GridAnswered (world_of state (held rows.entry) marks.old) grid row.old
        (world_of state (held rows.entry) marks.new) row.new
        (output out.old out.new result) }
{
    match grid_report(state, rows, marks, grid, row) {
        Err(refusal) => answer_refusal(out, refusal),
        Ok(total) => { answer_report(out, grid.column_count(), grid.row_count(), row, total) }
    }
}
