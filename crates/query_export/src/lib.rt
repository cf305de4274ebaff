// The query and all without the check, for the benchmark: the caller answers for the tree.
#![tactic(auto)]

ghost use Rattle.std.specs.Prelude.{◌≡◌, length};
ghost use Rattle.memory.specs.Lent.{holding};
ghost use Rattle.tree.specs.Operations.{IsTree, HasDots};
ghost use Rattle.host_rows.specs.Rows.{state_in, rect_of};
ghost use Rattle.query_export.specs.Answers.{Lists, ListsAll};

use geometry::aabb::AABB;
use host_rows::answers::answer_out;
use host_rows::rows::state_in;
use memory::rows::Rows;
use model::Window;
use tree_all::all_row;
use tree_query::query::query_row;

// The rows and the result as krakvinge's query has them.
#[unsafe(no_mangle)]
pub extern "C" fn krakvinge_query_unchecked(
    state: &[u32],
    nodes: &[u32],
    dots: &[u32],
    rects: &[i32],
    x1: i32,
    y1: i32,
    x2: i32,
    y2: i32,
    inks: u16,
    ids: &mut [u32],
    answer: &mut [u32],
) -> u64
    requires { (length state.now ≡ 12) × (length answer.old ≡ 2) × IsTree (state_in state.now) (holding nodes.now dots.now rects.now) }
    ensures { Lists (record { rect = rect_of x1 y1 x2 y2; inks = inks }) state.now nodes.now dots.now
        rects.now ids.old answer.old ids.new answer.new result }
{
    let before = state_in(state);
    let rect = AABB { x1, y1, x2, y2 };
    let done = query_row(
        before,
        Rows { nodes, dots, rects },
        Window { rect, inks },
        ids,
    );
    answer_out(answer, done)
}

// The rows and the result as krakvinge's all has them; no rectangles.
#[unsafe(no_mangle)]
pub extern "C" fn krakvinge_all_unchecked(
    state: &[u32],
    nodes: &[u32],
    dots: &[u32],
    ids: &mut [u32],
    answer: &mut [u32],
) -> u64
    requires { (length state.now ≡ 12) × (length answer.old ≡ 2) × HasDots (state_in state.now) nodes.now dots.now }
    ensures { ListsAll state.now nodes.now dots.now ids.old answer.old
        ids.new answer.new result }
{
    let before = state_in(state);
    let done = all_row(before, nodes, dots, ids);
    answer_out(answer, done)
}
