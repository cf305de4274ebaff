// The first line: S, from which a fresh tree is made.
#![tactic(auto)]

ghost use Rattle.std.specs.Prelude.{◌≡◌, ◌≤◌, length};
ghost use Rattle.model.specs.declared.State.{State};
ghost use Rattle.memory.specs.Lent.{held_mut, world_of, SameRows};
ghost use Rattle.lines.specs.Reading.{output, Written};
ghost use Rattle.ticket.specs.Ticket.{refusal_line};
ghost use Rattle.ticket.specs.First.{MakeLine, Started, after_start, ended};

use calls::make::make;
use geometry::settings::Settings;
use lines::answer::{answer_one, answer_refusal};
use lines::line::{Call, read_line};
use memory::rows::RowsMut;
use model::State;
use model::refusal::Refusal;
use ticket::Step;

fn answer_settings(
    settings: Settings,
    rows: &mut RowsMut<'_>,
    marks: &mut [u8],
    out: &mut [u8],
) -> Step<Option<State>>
    requires { 24 ≤ length out.old }
    ensures next_in_bounds { result.next ≤ length out.new }
    ensures same_rows { SameRows rows.old rows.new }
    ensures make_line { (before : State) → MakeLine (world_of before (held_mut rows.old) marks.old)
        settings result (world_of (after_start before result) (held_mut rows.new) marks.new)
        (output out.old out.new result.next) }
{
    match make(settings, rows, marks) {
        Err(refusal) => Step {
            state: None,
            next: answer_refusal(out, refusal),
        },
        Ok(state) => Step {
            state: Some(state),
            next: answer_one(out, b'S', settings.deepest()),
        },
    }
}

fn end_nine(out: &mut [u8]) -> Step<Option<State>>
    requires { 24 ≤ length out.old }
    ensures next_in_bounds { result.next ≤ length out.new }
    ensures value { (result ≡ ended result.next) × Written (output out.old out.new result.next) (refusal_line 9) }
{
    let next = answer_refusal(out, Refusal::UnknownKind);
    Step { state: None, next }
}

// The first line, without its LF, is carried out and answered.
pub fn answer_first(
    rows: &mut RowsMut<'_>,
    marks: &mut [u8],
    line: &[u8],
    out: &mut [u8],
) -> Step<Option<State>>
    requires { 24 ≤ length out.old }
    ensures next_in_bounds { result.next ≤ length out.new }
    ensures same_rows { SameRows rows.old rows.new }
    ensures started { (before : State) → Started (world_of before (held_mut rows.old) marks.old)
        line.now result (world_of (after_start before result) (held_mut rows.new) marks.new)
        (output out.old out.new result.next) }
{
    match read_line(line) {
        Some(Call::Settings(settings)) => { answer_settings(settings, rows, marks, out) }
        _ => end_nine(out),
    }
}
