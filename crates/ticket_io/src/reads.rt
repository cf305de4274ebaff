// One read: the lines that end in its bytes are answered.
ghost use Rattle.std.specs.Prelude.{IfSome, ◌≤◌, length, take};
ghost use Rattle.ticket.specs.Workspace.{lent_in, SameWorkspace};
ghost use Rattle.ticket_io.specs.Reading.{Chunked, ReadAnswered, ReadOn};

use line_reader::next_line;
use std::io::{Read, Write};
use stream::{Stream, read_some};
use ticket::{Phase, Workspace};
use ticket_end::{Progress, finish};
use ticket_turn::turn;

// The bytes of one read: its whole lines are answered. A line's byte beyond the row's room is not kept: such a line is too long.
// A `while`: `next_line` says where the next line begins.
fn chunk<W: Write>(
    progress: Progress,
    workspace: &mut Workspace,
    bytes: &[u8],
    line: &mut [u8],
    output: &mut Stream<W>,
) -> Progress
    requires { progress.kept ≤ length line.old }
    ensures same_rows { SameWorkspace workspace.old workspace.new }
    ensures chunked { Chunked workspace.old.program progress.phase (take progress.kept line.old) bytes.now (length line.old)
        (lent_in workspace.old) result line.new (lent_in workspace.new) }
{
    let mut phase = progress.phase;
    let mut kept = progress.kept;
    let mut at = 0;
    while at < bytes.len() {
        let found = next_line(line, kept, bytes, at);
        let Some(next) = found.next else {
            return Progress {
                phase,
                kept: found.count,
            };
        };
        phase = turn(phase, workspace, &line[..found.count], output);
        kept = 0;
        at = next;
    }
    Progress { phase, kept }
}

// What a read brought: the lines that end in its bytes are answered. A piece of a line before a read that failed is no line.
fn answer_read<W: Write>(
    progress: Progress,
    got: Option<usize>,
    workspace: &mut Workspace,
    line: &mut [u8],
    buffer: &[u8],
    output: &mut Stream<W>,
) -> Progress
    requires { (progress.kept ≤ length line.old) × IfSome got (λ count. count ≤ length buffer.now) }
    ensures same_rows { SameWorkspace workspace.old workspace.new }
    ensures kept_after { result.kept ≤ length line.new }
    ensures read_answered { ReadAnswered workspace.old.program progress got line.old
        (lent_in workspace.old) buffer.now result line.new (lent_in workspace.new) }
{
    match got {
        Some(0) => {
            let phase = finish(progress, workspace, line, output);
            Progress { phase, kept: 0 }
        }
        Some(count) => {
            let bytes = &buffer[..count];
            chunk(progress, workspace, bytes, line, output)
        }
        None => Progress {
            phase: Phase::Failed,
            kept: 0,
        },
    }
}

// One read.
pub fn read_on<R: Read, W: Write>(
    progress: Progress,
    workspace: &mut Workspace,
    line: &mut [u8],
    buffer: &mut [u8],
    input: &mut Stream<R>,
    output: &mut Stream<W>,
) -> Progress
    requires { progress.kept ≤ length line.old }
    ensures same_rows { SameWorkspace workspace.old workspace.new }
    ensures kept_after { result.kept ≤ length line.new }
    ensures read_on { ReadOn workspace.old.program progress line.old
        (lent_in workspace.old) buffer.new result line.new (lent_in workspace.new) }
{
    let got = read_some(input, buffer);
    answer_read(progress, got, workspace, line, buffer, output)
}
