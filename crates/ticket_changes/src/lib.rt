// The calls of a ticket that change the tree: each is made, and its answer's line written.
#![tactic(auto)]

ghost use Rattle.std.specs.Prelude.{◌≤◌, length};
ghost use Rattle.memory.specs.Lent.{held_mut, world_of, SameRows};
ghost use Rattle.model.specs.Layout.{world};
ghost use Rattle.lines.specs.Reading.{output};
ghost use Rattle.ticket.specs.Ticket.{InsertLine, RemoveLine, CleanupLine};

use calls::cleanup::cleanup;
use calls::insert::insert;
use calls::remove::remove;
use geometry::aabb::AABB;
use lines::answer::{answer_one, answer_refusal, answer_two};
use memory::rows::RowsMut;
use model::{Dot, State};
use ticket::Step;

pub fn answer_insert(
    state: State,
    rows: &mut RowsMut<'_>,
    marks: &mut [u8],
    dot: Dot,
    out: &mut [u8],
) -> Step<State>
    requires { 24 ≤ length out.old }
    ensures next_in_bounds { result.next ≤ length out.new }
    ensures same_rows { SameRows rows.old rows.new }
    ensures insert_line { InsertLine (world_of state (held_mut rows.old) marks.old) dot
        (world_of result.state (held_mut rows.new) marks.new)
        (output out.old out.new result.next) }
{
    match insert(state, rows, marks, dot) {
        Err(refusal) => {
            let next = answer_refusal(out, refusal);
            Step { state, next }
        }
        Ok(inserted) => {
            let next = answer_two(out, b'I', dot.id, inserted.number);
            Step {
                state: inserted.state,
                next,
            }
        }
    }
}

pub fn answer_remove(
    state: State,
    rows: &mut RowsMut<'_>,
    marks: &mut [u8],
    id: u32,
    rect: AABB,
    out: &mut [u8],
) -> Step<State>
    requires { 24 ≤ length out.old }
    ensures next_in_bounds { result.next ≤ length out.new }
    ensures same_rows { SameRows rows.old rows.new }
    ensures remove_line { RemoveLine (world_of state (held_mut rows.old) marks.old) id rect
        (world_of result.state (held_mut rows.new) marks.new)
        (output out.old out.new result.next) }
{
    match remove(state, rows, marks, id, rect) {
        Err(refusal) => {
            let next = answer_refusal(out, refusal);
            Step { state, next }
        }
        Ok(Some(after)) => {
            let next = answer_two(out, b'D', id, 1);
            Step { state: after, next }
        }
        Ok(None) => {
            let next = answer_two(out, b'D', id, 0);
            Step { state, next }
        }
    }
}

// Dots and rectangles are lent for reading only, as `cleanup` takes them.
pub fn answer_cleanup(
    state: State,
    nodes: &mut [u32],
    dots: &[u32],
    rects: &[i32],
    marks: &mut [u8],
    out: &mut [u8],
) -> Step<State>
    requires { 24 ≤ length out.old }
    ensures next_in_bounds { result.next ≤ length out.new }
    ensures cleanup_line { CleanupLine (world state nodes.old dots.now rects.now marks.old)
        (world result.state nodes.new dots.now rects.now marks.new)
        (output out.old out.new result.next) }
{
    match cleanup(state, nodes, dots, rects, marks) {
        Err(refusal) => {
            let next = answer_refusal(out, refusal);
            Step { state, next }
        }
        Ok(Some(after)) => {
            let next = answer_one(out, b'C', 1);
            Step { state: after, next }
        }
        Ok(None) => {
            let next = answer_one(out, b'C', 0);
            Step { state, next }
        }
    }
}
