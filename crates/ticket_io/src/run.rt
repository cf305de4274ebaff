// A ticket from standard input to standard output: one read after another, to the input's end.
ghost use Rattle.std.specs.Prelude.{◌≡◌, ◌≤◌, length};
ghost use Rattle.ticket.specs.Turns.{is_over};
ghost use Rattle.ticket.specs.Workspace.{lent_in, SameWorkspace};
ghost use Rattle.ticket_io.specs.Reading.{AllAnswered};

use crate::reads::read_on;
use std::io::{Eprint, Error, Read, Write};
use stream::{Stream, write_bytes};
use ticket::{Phase, Program, Workspace};
use ticket_end::Progress;

// Whether no line is answered any more.
fn is_over(phase: Phase) -> bool
    ensures { result ≡ is_over phase }
{
    matches!(phase, Phase::Ended | Phase::Failed)
}

// Reads to the input's end, or until no line is answered any more.
// Nothing says that the input ends, so the loop ends after a number of turns that no run uses up.
fn run<R: Read, W: Write>(
    workspace: &mut Workspace,
    line: &mut [u8],
    buffer: &mut [u8],
    input: &mut Stream<R>,
    output: &mut Stream<W>,
) -> Phase
    requires { length line.old ≡ 81 }
    ensures same_rows { SameWorkspace workspace.old workspace.new }
    ensures all_answered { result ≡ Phase.Ended → AllAnswered workspace.old.program (lent_in workspace.old) (lent_in workspace.new) }
{
    let mut progress = Progress {
        phase: Phase::First,
        kept: 0,
    };
    for _ in 0..u64::MAX {
        progress = read_on(progress, workspace, line, buffer, input, output);
        let phase = progress.phase;
        if is_over(phase) {
            return phase;
        }
    }
    Phase::Failed
}

// Says on standard error which program failed, and by which error.
fn failed<E: Eprint>(program: Program, failure: Option<Error>, errors: &E) -> u32
    ensures { result ≡ 1 }
{
    let name = match program {
        Program::Dotcheck => "dotcheck",
        Program::Gridreport => "gridreport",
    };
    // Where this cannot be written either, nothing is left to say it by.
    let _ = match failure {
        Some(error) => errors.eprintln(format_args!("{name}: {error}")),
        None => errors.eprintln(name),
    };
    1
}

// The header, then the answers. The status is 0, or 1 where a read or a write failed: then nothing more is read or answered.
pub fn answer_ticket<R: Read, W: Write, E: Eprint>(
    workspace: &mut Workspace,
    line: &mut [u8],
    buffer: &mut [u8],
    input: &mut Stream<R>,
    output: &mut Stream<W>,
    errors: &E,
) -> u32
    requires { length line.old ≡ 81 }
    ensures same_rows { SameWorkspace workspace.old workspace.new }
    ensures upper_bound { result ≤ 1 }
    ensures all_answered { result ≡ 0 → AllAnswered workspace.old.program (lent_in workspace.old) (lent_in workspace.new) }
{
    if write_bytes(output, b"DOTS,1\n").is_none() {
        return failed(workspace.program, output.failure, errors);
    }
    let phase = run(workspace, line, buffer, input, output);
    if let Phase::Ended = phase {
        0
    } else {
        failed(workspace.program, input.failure.or(output.failure), errors)
    }
}
