// The calls that change the tree: make, insert, remove, cleanup.
ghost use Rattle.host_rows.specs.Rows.{rect_of};
ghost use Rattle.krakvinge.specs.Exports.{lent, Makes, Inserts, Removes, CleansUp};

use calls::cleanup::cleanup;
use calls::insert::insert;
use calls::make::make;
use calls::remove::remove;
use geometry::aabb::AABB;
use host_rows::answers::{change_out, make_out, refused, yes_no_out};
use host_rows::rows::{rows_fit, settings_in, state_in};
use memory::rows::RowsMut;
use model::Dot;
use model::refusal::Refusal;

// Makes the rows a fresh tree with the settings of the state row, and writes its free heads, live number and count of changes there.
#[unsafe(no_mangle)]
pub extern "C" fn krakvinge_make(
    state: &mut [u32],
    nodes: &mut [u32],
    dots: &mut [u32],
    rects: &mut [i32],
    marks: &mut [u8],
) -> u64
    ensures { Makes state.old nodes.old dots.old rects.old marks.old state.new
        nodes.new dots.new rects.new marks.new result }
{
    if state.len() != 12 {
        return refused(Refusal::BadLengths);
    }
    let settings = settings_in(state);
    let mut rows = RowsMut { nodes, dots, rects };
    let done = make(settings, &mut rows, marks);
    make_out(state, done)
}

// A dot with its id, rectangle and ink; the answer is the number of splits.
#[unsafe(no_mangle)]
pub extern "C" fn krakvinge_insert(
    state: &mut [u32],
    nodes: &mut [u32],
    dots: &mut [u32],
    rects: &mut [i32],
    marks: &mut [u8],
    id: u32,
    x1: i32,
    y1: i32,
    x2: i32,
    y2: i32,
    ink: u32,
    answer: &mut [u32],
) -> u64
    ensures { Inserts (record { id = id; rect = rect_of x1 y1 x2 y2; ink = ink })
        (lent state.old nodes.old dots.old rects.old marks.old answer.old)
        (lent state.new nodes.new dots.new rects.new marks.new answer.new) result }
{
    if !rows_fit(state, answer) {
        return refused(Refusal::BadLengths);
    }
    let before = state_in(state);
    let rect = AABB { x1, y1, x2, y2 };
    let mut rows = RowsMut { nodes, dots, rects };
    let done = insert(before, &mut rows, marks, Dot { id, rect, ink });
    change_out(state, answer, done)
}

// The first dot with the id in the leaf that the rectangle routes to; the answer is 1 for yes, 0 for no.
#[unsafe(no_mangle)]
pub extern "C" fn krakvinge_remove(
    state: &mut [u32],
    nodes: &mut [u32],
    dots: &mut [u32],
    rects: &mut [i32],
    marks: &mut [u8],
    id: u32,
    x1: i32,
    y1: i32,
    x2: i32,
    y2: i32,
    answer: &mut [u32],
) -> u64
    ensures { Removes id (rect_of x1 y1 x2 y2)
        (lent state.old nodes.old dots.old rects.old marks.old answer.old)
        (lent state.new nodes.new dots.new rects.new marks.new answer.new) result }
{
    if !rows_fit(state, answer) {
        return refused(Refusal::BadLengths);
    }
    let before = state_in(state);
    let rect = AABB { x1, y1, x2, y2 };
    let mut rows = RowsMut { nodes, dots, rects };
    let done = remove(before, &mut rows, marks, id, rect);
    yes_no_out(state, answer, done)
}

// Branches with five empty children become empty leaves, one level a call; the answer is 1 for yes, 0 for no.
#[unsafe(no_mangle)]
pub extern "C" fn krakvinge_cleanup(
    state: &mut [u32],
    nodes: &mut [u32],
    dots: &[u32],
    rects: &[i32],
    marks: &mut [u8],
    answer: &mut [u32],
) -> u64
    ensures { CleansUp (lent state.old nodes.old dots.now rects.now marks.old
        answer.old) (lent state.new nodes.new dots.now rects.now marks.new
        answer.new) result }
{
    if !rows_fit(state, answer) {
        return refused(Refusal::BadLengths);
    }
    let before = state_in(state);
    let done = cleanup(before, nodes, dots, rects, marks);
    yes_no_out(state, answer, done)
}
