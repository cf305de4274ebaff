// A line after the first: a call on the tree, or the grid that ends a ticket.
#![tactic(auto)]

ghost use Rattle.std.specs.Prelude.{◌+◌, ◌*◌, ◌≤◌, length};
ghost use Rattle.ticket.specs.Ticket.{Answered};
ghost use Rattle.ticket.specs.First.{after_start};
ghost use Rattle.ticket.specs.Report.{GridAnswered, Turned};
ghost use Rattle.ticket.specs.Turns.{output_of, world_of};
ghost use Rattle.ticket.specs.Workspace.{lent_in, SameWorkspace};

use grid::grid::Grid;
use lines::grid_line::read_grid;
use lines::line::read_line;
use model::State;
use ticket::{Step, Workspace};
use ticket_calls::{answer_call, answer_nine};
use ticket_queries::answer_grid;

// A line, without its LF, is carried out and answered.
pub fn answer_line(state: State, workspace: &mut Workspace, line: &[u8]) -> Step<State>
    ensures same_rows { SameWorkspace workspace.old workspace.new }
    ensures next_in_bounds { result.next ≤ length workspace.new.out.now }
    ensures answered { Answered (world_of state (lent_in workspace.old)) workspace.old.row.now line.now
        (world_of result.state (lent_in workspace.new)) workspace.new.row.now
        (output_of (lent_in workspace.old) (lent_in workspace.new) result.next) }
{
    match read_line(line) {
        Some(call) => answer_call(state, workspace, call),
        None => answer_nine(state, workspace.out),
    }
}

// The report of a grid, of rows that are lent for changes.
fn report(state: State, workspace: &mut Workspace, grid: Grid) -> usize
    requires { 24 + 17 * length workspace.old.row.now ≤ length workspace.old.out.now }
    ensures same_rows { SameWorkspace workspace.old workspace.new }
    ensures upper_bound { result ≤ length workspace.new.out.now }
    ensures grid_answered { GridAnswered (world_of state (lent_in workspace.old)) grid workspace.old.row.now
        (world_of state (lent_in workspace.new)) workspace.new.row.now
        (output_of (lent_in workspace.old) (lent_in workspace.new) result) }
{
    answer_grid(
        state,
        workspace.rows.shared(),
        workspace.marks,
        grid,
        workspace.row,
        workspace.out,
    )
}

// A line, without its LF: a grid's is answered and is the last, any other is answered as a ticket's.
pub fn answer_grid_line(state: State, workspace: &mut Workspace, line: &[u8]) -> Step<Option<State>>
    requires { 24 + 17 * length workspace.old.row.now ≤ length workspace.old.out.now }
    ensures same_rows { SameWorkspace workspace.old workspace.new }
    ensures next_in_bounds { result.next ≤ length workspace.new.out.now }
    ensures turned { Turned (world_of state (lent_in workspace.old)) workspace.old.row.now line.now result
        (world_of (after_start state result) (lent_in workspace.new)) workspace.new.row.now
        (output_of (lent_in workspace.old) (lent_in workspace.new) result.next) }
{
    match read_grid(line) {
        Some(grid) => {
            let next = report(state, workspace, grid);
            Step { state: None, next }
        }
        None => answer_line(state, workspace, line).goes_on(),
    }
}
