// The calls that leave the tree as it is: query, collect_ids, all, leaves, references, the grid report, and the check alone.
ghost use Rattle.host_rows.specs.Rows.{rect_of, grid_of};
ghost use Rattle.krakvinge.specs.Exports.{lent, Queries, CollectsIds, ListsAll, ListsLeaves, CountsDots, Reports, Checks};

use calls::all::all;
use calls::leaves::leaves;
use calls::query::{collect_ids, query};
use calls::references::references;
use calls::report::grid_report;
use geometry::aabb::AABB;
use grid::grid::Grid;
use host_rows::answers::{answer_out, refused};
use host_rows::rows::{rows_fit, state_in};
use memory::rows::Rows;
use model::Window;
use model::refusal::Refusal;
use tree_check::check::check;

// The ids of the dots of the mask's inks that the rectangle meets; the answer is their number and the nodes opened.
#[unsafe(no_mangle)]
pub extern "C" fn krakvinge_query(
    state: &[u32],
    nodes: &[u32],
    dots: &[u32],
    rects: &[i32],
    marks: &mut [u8],
    x1: i32,
    y1: i32,
    x2: i32,
    y2: i32,
    inks: u16,
    ids: &mut [u32],
    answer: &mut [u32],
) -> u64
    ensures { Queries (record { rect = rect_of x1 y1 x2 y2; inks = inks })
        (lent state.now nodes.now dots.now rects.now marks.old answer.old)
        ids.old (lent state.now nodes.now dots.now rects.now marks.new
        answer.new) ids.new result }
{
    if !rows_fit(state, answer) {
        return refused(Refusal::BadLengths);
    }
    let before = state_in(state);
    let rect = AABB { x1, y1, x2, y2 };
    let done = query(
        before,
        Rows { nodes, dots, rects },
        marks,
        Window { rect, inks },
        ids,
    );
    answer_out(answer, done)
}

// The original's collect_ids: a query with the root's rectangle, of all inks.
#[unsafe(no_mangle)]
pub extern "C" fn krakvinge_collect_ids(
    state: &[u32],
    nodes: &[u32],
    dots: &[u32],
    rects: &[i32],
    marks: &mut [u8],
    ids: &mut [u32],
    answer: &mut [u32],
) -> u64
    ensures { CollectsIds (lent state.now nodes.now dots.now rects.now marks.old
        answer.old) ids.old
        (lent state.now nodes.now dots.now rects.now marks.new answer.new) ids.new result }
{
    if !rows_fit(state, answer) {
        return refused(Refusal::BadLengths);
    }
    let before = state_in(state);
    let done = collect_ids(before, Rows { nodes, dots, rects }, marks, ids);
    answer_out(answer, done)
}

// The ids of all dots; the answer is their number.
#[unsafe(no_mangle)]
pub extern "C" fn krakvinge_all(
    state: &[u32],
    nodes: &[u32],
    dots: &[u32],
    rects: &[i32],
    marks: &mut [u8],
    ids: &mut [u32],
    answer: &mut [u32],
) -> u64
    ensures { ListsAll (lent state.now nodes.now dots.now rects.now marks.old
        answer.old) ids.old
        (lent state.now nodes.now dots.now rects.now marks.new answer.new) ids.new result }
{
    if !rows_fit(state, answer) {
        return refused(Refusal::BadLengths);
    }
    let before = state_in(state);
    let done = all(before, Rows { nodes, dots, rects }, marks, ids);
    answer_out(answer, done)
}

// Six numbers a leaf (§9.2); the answer is the number of leaves.
#[unsafe(no_mangle)]
pub extern "C" fn krakvinge_leaves(
    state: &[u32],
    nodes: &[u32],
    dots: &[u32],
    rects: &[i32],
    marks: &mut [u8],
    row: &mut [i32],
    answer: &mut [u32],
) -> u64
    ensures { ListsLeaves (lent state.now nodes.now dots.now rects.now marks.old
        answer.old) row.old
        (lent state.now nodes.now dots.now rects.now marks.new answer.new) row.new result }
{
    if !rows_fit(state, answer) {
        return refused(Refusal::BadLengths);
    }
    let before = state_in(state);
    let done = leaves(before, Rows { nodes, dots, rects }, marks, row);
    answer_out(answer, done)
}

// The dots in all leaves; the answer is their number.
#[unsafe(no_mangle)]
pub extern "C" fn krakvinge_references(
    state: &[u32],
    nodes: &[u32],
    dots: &[u32],
    rects: &[i32],
    marks: &mut [u8],
    answer: &mut [u32],
) -> u64
    ensures { CountsDots (lent state.now nodes.now dots.now rects.now marks.old
        answer.old) (lent state.now nodes.now dots.now rects.now marks.new
        answer.new) result }
{
    if !rows_fit(state, answer) {
        return refused(Refusal::BadLengths);
    }
    let before = state_in(state);
    let done = references(before, Rows { nodes, dots, rects }, marks);
    answer_out(answer, done)
}

// The check that each call begins with, alone: 0 where the rows are a tree.
#[unsafe(no_mangle)]
pub extern "C" fn krakvinge_check(
    state: &[u32],
    nodes: &[u32],
    dots: &[u32],
    rects: &[i32],
    marks: &mut [u8],
) -> u64
    ensures { Checks state.now nodes.now dots.now rects.now marks.old marks.new result }
{
    if state.len() != 12 {
        return refused(Refusal::BadLengths);
    }
    let before = state_in(state);
    match check(before, Rows { nodes, dots, rects }, marks) {
        Ok(()) => 0,
        Err(refusal) => refused(refusal),
    }
}

// The counts of a grid's windows; the answer is the total, its low word first.
#[unsafe(no_mangle)]
pub extern "C" fn krakvinge_grid(
    state: &[u32],
    nodes: &[u32],
    dots: &[u32],
    rects: &[i32],
    marks: &mut [u8],
    x: i32,
    y: i32,
    width: i32,
    height: i32,
    columns: i32,
    rows: i32,
    counts: &mut [u32],
    answer: &mut [u32],
) -> u64
    ensures { Reports (grid_of x y width height columns rows)
        (lent state.now nodes.now dots.now rects.now marks.old answer.old)
        counts.old (lent state.now nodes.now dots.now rects.now marks.new
        answer.new) counts.new result }
{
    if !rows_fit(state, answer) {
        return refused(Refusal::BadLengths);
    }
    let before = state_in(state);
    let grid = Grid {
        x,
        y,
        width,
        height,
        columns,
        rows,
    };
    let done = grid_report(before, Rows { nodes, dots, rects }, marks, grid, counts);
    answer_out(answer, done)
}
