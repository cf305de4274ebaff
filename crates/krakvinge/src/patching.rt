// The patch on numbers and lent rows.
ghost use Rattle.host_rows.specs.Rows.{patch_of};
ghost use Rattle.krakvinge.specs.Exports.{lent, LaysPatch};

use calls::patch::patch;
use host_rows::answers::{change_out, refused};
use host_rows::rows::{rows_fit, state_in};
use memory::rows::RowsMut;
use model::patch::Patch;
use model::refusal::Refusal;

// One-unit dots of ink 0 where the threshold is below the tint, in columns times rows of tiles; the answer is the number of dots.
// Refusal 13 comes ahead of 1.
#[unsafe(no_mangle)]
pub extern "C" fn krakvinge_patch(
    state: &mut [u32],
    nodes: &mut [u32],
    dots: &mut [u32],
    rects: &mut [i32],
    marks: &mut [u8],
    x: i32,
    y: i32,
    columns: u32,
    rows: u32,
    tint: u32,
    first_id: u32,
    answer: &mut [u32],
) -> u64
    ensures { LaysPatch (patch_of x y columns rows tint first_id)
        (lent state.old nodes.old dots.old rects.old marks.old answer.old)
        (lent state.new nodes.new dots.new rects.new marks.new answer.new) result }
{
    let laying = Patch {
        x,
        y,
        columns,
        rows,
        tint,
        first_id,
    };
    if !laying.in_range() {
        return refused(Refusal::BadPatch);
    }
    if !rows_fit(state, answer) {
        return refused(Refusal::BadLengths);
    }
    let before = state_in(state);
    let mut rows = RowsMut { nodes, dots, rects };
    let done = patch(before, &mut rows, marks, laying);
    change_out(state, answer, done)
}
