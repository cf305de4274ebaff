// Tickets from an input to an output, for trees of 1024 places and 512 groups. Each program tells its exit status, and why it failed.
#![tactic(auto)]

mod reads;
mod run;

ghost use Rattle.std.specs.Prelude.{◌≡◌, ◌≤◌, length};
ghost use Rattle.memory.specs.Lent.{SameRows};
ghost use Rattle.ticket.specs.Room.{Room};
ghost use Rattle.ticket.specs.Turns.{lent};
ghost use Rattle.ticket_io.specs.Reading.{AllAnswered};

use crate::run::answer_ticket;
use memory::rows::RowsMut;
use std::io::{Eprint, Read, Write};
use stream::Stream;
use ticket::{Program, Workspace};

// A ticket in rows that are lent, from what they held to what they hold then.
fn answer_lent<R: Read + Drop, W: Write + Drop, E: Eprint>(
    program: Program,
    rows: &mut RowsMut<'_>,
    marks: &mut [u8],
    row: &mut [u32],
    out: &mut [u8],
    input: R,
    output: W,
    errors: &E,
) -> u32
    requires { Room program (length row.old) (length out.old) }
    ensures same_rows { SameRows rows.old rows.new }
    ensures upper_bound { result ≤ 1 }
    ensures all_answered { result ≡ 0
        → AllAnswered program (lent rows.old.nodes.now rows.old.dots.now rows.old.rects.now marks.old row.old out.old)
        (lent rows.new.nodes.now rows.new.dots.now rows.new.rects.now marks.new row.new out.new) }
{
    let mut input = Stream::new(input);
    let mut output = Stream::new(output);
    let mut line = [0u8; 81];
    let mut buffer = [0u8; 4096];
    let mut workspace = Workspace {
        program,
        rows,
        marks,
        row,
        out,
    };
    answer_ticket(
        &mut workspace,
        &mut line,
        &mut buffer,
        &mut input,
        &mut output,
        errors,
    )
}

// A program's own rows, the answer's words and its bytes, are passed: as const parameters their sizes would need bounds of their own.
// The tree's are the same for all.
fn run_program<R: Read + Drop, W: Write + Drop, E: Eprint>(
    program: Program,
    row: &mut [u32],
    out: &mut [u8],
    input: R,
    output: W,
    errors: &E,
) -> u32
    requires { Room program (length row.old) (length out.old) }
    ensures { result ≤ 1 }
{
    let mut nodes = [0u32; 5122];
    let mut dots = [0u32; 3072];
    let mut rects = [0i32; 4096];
    let mut marks = [0u8; 1536];
    let mut rows = RowsMut {
        nodes: &mut nodes,
        dots: &mut dots,
        rects: &mut rects,
    };
    answer_lent(
        program, &mut rows, &mut marks, row, out, input, output, errors,
    )
}

pub fn krakvinge_dotcheck<R: Read + Drop, W: Write + Drop, E: Eprint>(
    input: R,
    output: W,
    errors: &E,
) -> u32
    ensures { result ≤ 1 }
{
    let mut row = [0u32; 1024];
    let mut out = [0u8; 11304];
    run_program(Program::Dotcheck, &mut row, &mut out, input, output, errors)
}

// The row has a word for each of the 4096 windows of the largest grid.
pub fn krakvinge_gridreport<R: Read + Drop, W: Write + Drop, E: Eprint>(
    input: R,
    output: W,
    errors: &E,
) -> u32
    ensures { result ≤ 1 }
{
    let mut row = [0u32; 4096];
    let mut out = [0u8; 69656];
    run_program(
        Program::Gridreport,
        &mut row,
        &mut out,
        input,
        output,
        errors,
    )
}
