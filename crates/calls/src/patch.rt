// Tint patch: its dots are laid whole, each as an insert, or none of them.
ghost use Rattle.model.specs.Patch.{LayPatch};
ghost use Rattle.model.specs.Answers.{change_reply, change_state};
ghost use Rattle.memory.specs.Lent.{held_mut, world_of, SameRows};

use memory::rows::RowsMut;
use model::State;
use model::answers::Changed;
use model::patch::Patch;
use model::refusal::Refusal;
use tree_check::check::check;
use tree_patch::lay_patch;

// Refusal 13 comes first, and writes nothing.
pub fn patch(
    state: State,
    rows: &mut RowsMut<'_>,
    marks: &mut [u8],
    patch: Patch,
) -> Result<Changed, Refusal>
    ensures same_rows { SameRows rows.old rows.new }
    ensures obeys { LayPatch (world_of state (held_mut rows.old) marks.old) patch
        (world_of (change_state state result) (held_mut rows.new) marks.new) (change_reply result) }
{
    if !patch.in_range() {
        return Err(Refusal::BadPatch);
    }
    check(state, rows.shared(), marks)?;
    lay_patch(state, rows, patch)
}
