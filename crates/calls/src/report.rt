// The window grid report: the counts in the row that the caller lends, and the total.
ghost use Rattle.model.specs.Calls.{GridReport};
ghost use Rattle.model.specs.Answers.{number_reply};
ghost use Rattle.memory.specs.Lent.{held, world_of};

use grid::grid::Grid;
use memory::rows::Rows;
use model::State;
use model::refusal::Refusal;
use tree_check::check::check;
use tree_grid::report::report_row;

pub fn grid_report(
    state: State,
    rows: Rows<'_>,
    marks: &mut [u8],
    grid: Grid,
    row: &mut [u32],
) -> Result<u64, Refusal>
    ensures { GridReport (world_of state (held rows.entry) marks.old) grid row.old
        (world_of state (held rows.entry) marks.new) row.new (number_reply result) }
{
    check(state, rows, marks)?;
    report_row(state, rows.rects, grid, row)
}
