// The call that a line of a ticket is, and the answer to a line that is none.
#![tactic(auto)]

ghost use Rattle.std.specs.Prelude.{◌≡◌, ◌+◌, ◌*◌, ◌≤◌, length};
ghost use Rattle.lines.specs.Reading.{output, Written};
ghost use Rattle.memory.specs.Lent.{held_mut, world_of, SameRows};
ghost use Rattle.ticket.specs.Ticket.{Called, CleanupLine, QueryLine, refusal_line};
ghost use Rattle.ticket.specs.Turns as turns;
ghost use Rattle.ticket.specs.Turns.{output_of};
ghost use Rattle.ticket.specs.Workspace.{lent_in, SameWorkspace};

use lines::answer::answer_refusal;
use lines::line::Call;
use memory::rows::RowsMut;
use model::refusal::Refusal;
use model::{Dot, State, Window};
use ticket::{Step, Workspace};
use ticket_changes::{answer_cleanup, answer_insert, answer_remove};
use ticket_queries::answer_listing;

// An unreadable line, or a later S.
pub fn answer_nine(state: State, out: &mut [u8]) -> Step<State>
    requires { 24 ≤ length out.old }
    ensures next_in_bounds { result.next ≤ length out.new }
    ensures unreadable { (result.state ≡ state) × Written (output out.old out.new result.next) (refusal_line 9) }
{
    let next = answer_refusal(out, Refusal::UnknownKind);
    Step { state, next }
}

// A cleanup, of rows that are lent for changes. Two of them are lent on one by one, to be read while the third is changed.
fn clean_up(state: State, rows: &mut RowsMut<'_>, marks: &mut [u8], out: &mut [u8]) -> Step<State>
    requires { 24 ≤ length out.old }
    ensures same_rows { SameRows rows.old rows.new }
    ensures next_in_bounds { result.next ≤ length out.new }
    ensures cleanup_line { CleanupLine (world_of state (held_mut rows.old) marks.old)
        (world_of result.state (held_mut rows.new) marks.new) (output out.old out.new result.next) }
{
    let dots = &mut *rows.dots;
    let rects = &mut *rows.rects;
    answer_cleanup(state, rows.nodes, dots, rects, marks, out)
}

// A query, of rows that are lent for changes.
fn list(state: State, workspace: &mut Workspace, window: Window) -> Step<State>
    ensures same_rows { SameWorkspace workspace.old workspace.new }
    ensures next_in_bounds { result.next ≤ length workspace.new.out.now }
    ensures query_line { QueryLine (turns.world_of state (lent_in workspace.old)) window workspace.old.row.now
        (turns.world_of result.state (lent_in workspace.new)) workspace.new.row.now
        (output_of (lent_in workspace.old) (lent_in workspace.new) result.next) }
{
    answer_listing(
        state,
        workspace.rows.shared(),
        workspace.marks,
        window,
        workspace.row,
        workspace.out,
    )
}

// The call that a line is: an insert without an ink has ink 0, and a query asks for all inks.
pub fn answer_call(state: State, workspace: &mut Workspace, call: Call) -> Step<State>
    ensures same_rows { SameWorkspace workspace.old workspace.new }
    ensures next_in_bounds { result.next ≤ length workspace.new.out.now }
    ensures called { Called (turns.world_of state (lent_in workspace.old)) workspace.old.row.now call
        (turns.world_of result.state (lent_in workspace.new)) workspace.new.row.now
        (output_of (lent_in workspace.old) (lent_in workspace.new) result.next) }
{
    let rows = &mut *workspace.rows;
    let marks = &mut *workspace.marks;
    let out = &mut *workspace.out;
    match call {
        Call::Settings(_) => answer_nine(state, out),
        Call::Insert(id, rect) => {
            let dot = Dot { id, rect, ink: 0 };
            answer_insert(state, rows, marks, dot, out)
        }
        Call::InsertInk(dot) => answer_insert(state, rows, marks, dot, out),
        Call::Remove(id, rect) => answer_remove(state, rows, marks, id, rect, out),
        Call::Cleanup => clean_up(state, rows, marks, out),
        Call::Query(rect) => {
            let window = Window::all_inks(rect);
            list(state, workspace, window)
        }
    }
}
