// The input's end: a last line may lack its LF.
#![tactic(auto)]

ghost use Rattle.std.specs.Prelude.{◌≡◌, ◌≤◌, length, take};
ghost use Rattle.ticket.specs.Workspace.{lent_in, SameWorkspace};
ghost use Rattle.ticket_end.specs.End.{is_left, end_phase, Finished};

use std::io::Write;
use stream::Stream;
use ticket::{Phase, Workspace};
use ticket_turn::turn;

// The phase, and how many bytes of a line that is not whole yet are kept.
#[derive(Clone, Copy)]
pub struct Progress {
    pub phase: Phase,
    pub kept: usize,
}

// Whether a line is left at the input's end: one without its LF, or the first, which is missing.
fn is_left(phase: Phase, kept: usize) -> bool
    ensures { result ≡ is_left phase kept }
{
    matches!(phase, Phase::First) || kept > 0
}

// The phase at the input's end.
fn ended(phase: Phase) -> Phase
    ensures { result ≡ end_phase phase }
{
    match phase {
        Phase::Failed => phase,
        _ => Phase::Ended,
    }
}

// The last line, which may lack its LF; a first line that is missing is unreadable.
pub fn finish<W: Write>(
    progress: Progress,
    workspace: &mut Workspace,
    line: &[u8],
    output: &mut Stream<W>,
) -> Phase
    requires { progress.kept ≤ length line.now }
    ensures same_rows { SameWorkspace workspace.old workspace.new }
    ensures finished { Finished workspace.old.program progress.phase (take progress.kept line.now)
        (lent_in workspace.old) result (lent_in workspace.new) }
{
    let phase = progress.phase;
    let kept = progress.kept;
    if is_left(phase, kept) {
        let last = &line[..kept];
        ended(turn(phase, workspace, last, output))
    } else {
        ended(phase)
    }
}
