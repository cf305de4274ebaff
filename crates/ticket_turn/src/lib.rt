// One line of a ticket, by the phase of its program: its answer is written.
#![tactic(auto)]

ghost use Rattle.std.specs.Prelude.{◌≤◌, length};
ghost use Rattle.ticket.specs.Turns.{phase_of, GoesTo, Turn};
ghost use Rattle.ticket.specs.Workspace.{lent_in, SameWorkspace};

use model::State;
use std::io::Write;
use stream::{Stream, write_bytes};
use ticket::{Phase, Program, Step, Workspace};
use ticket_first::answer_first;
use ticket_later::{answer_grid_line, answer_line};

// The answer is written, and the tree goes on or the end is reached; or it could not be.
fn stepped<W: Write>(out: &[u8], step: Step<Option<State>>, output: &mut Stream<W>) -> Phase
    requires { step.next ≤ length out.now }
    ensures { GoesTo (phase_of step.state) result }
{
    match (write_bytes(output, &out[..step.next]), step.state) {
        (Some(()), Some(state)) => Phase::Going(state),
        (Some(()), None) => Phase::Ended,
        (None, _) => Phase::Failed,
    }
}

// A line after the first. A match: a trait would have the two programs' answers as its members, where the statement has them as its cases.
fn answer<W: Write>(
    state: State,
    workspace: &mut Workspace,
    line: &[u8],
    output: &mut Stream<W>,
) -> Phase
    ensures same_rows { SameWorkspace workspace.old workspace.new }
    ensures turn { Turn workspace.old.program (Phase.Going state)
        (lent_in workspace.old) line.now result (lent_in workspace.new) }
{
    let step = match workspace.program {
        Program::Dotcheck => answer_line(state, workspace, line).goes_on(),
        Program::Gridreport => answer_grid_line(state, workspace, line),
    };
    stepped(workspace.bytes(), step, output)
}

// A whole line, without its LF.
pub fn turn<W: Write>(
    phase: Phase,
    workspace: &mut Workspace,
    line: &[u8],
    output: &mut Stream<W>,
) -> Phase
    ensures same_rows { SameWorkspace workspace.old workspace.new }
    ensures turn { Turn workspace.old.program phase
        (lent_in workspace.old) line.now result (lent_in workspace.new) }
{
    match phase {
        Phase::First => {
            let step = answer_first(workspace.rows, workspace.marks, line, workspace.out);
            stepped(workspace.bytes(), step, output)
        }
        Phase::Going(state) => answer(state, workspace, line, output),
        Phase::Ended | Phase::Failed => phase,
    }
}
