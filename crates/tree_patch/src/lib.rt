// Tint patches on the tree, without the check.
#![tactic(auto)]

ghost use Rattle.std.specs.Prelude.{◌≡◌, true};
ghost use Rattle.model.specs.Patch.{patch_fits, patch_rule};
ghost use Rattle.model.specs.Answers.{change_state, change_reply};
ghost use Rattle.memory.specs.Lent.{held, held_mut, SameRows};
ghost use Rattle.tree.specs.Operations.{IsTree, CarriedOut};
ghost use Rattle.tree_patch.specs.Goes.{GoesTold};

mod free;
mod lay;
mod splits;

use crate::free::has_free;
use crate::lay::lay_rows;
use crate::splits::patch_splits;
use memory::lengths::places_in;
use memory::rows::{Rows, RowsMut};
use model::State;
use model::answers::Changed;
use model::patch::Patch;
use model::refusal::Refusal;
use tint::count::{dots_number, ids_fit, unit_bounds};
use tint::sums::{SUMS, TiledPatch};

// Whether no dot of the patch would be refused in its turn. Nothing is stored: the splits of all dots together do not depend on their order.
fn can_lay(state: State, rows: Rows<'_>, patch: Patch) -> bool
    requires { IsTree state (held rows) × (patch_fits patch ≡ true) }
    ensures { GoesTold state patch (held rows.entry) result }
{
    if !ids_fit(patch) {
        return false;
    }
    let number = dots_number(patch);
    // The live dots, with these.
    let live = state.live as usize + number as usize;
    if places_in(rows.dots) < live {
        return false;
    }
    let mut sums = [0; SUMS];
    let tiled = TiledPatch::new(patch, &mut sums);
    if tiled.dots_within(unit_bounds(state.settings)) < number {
        return false;
    }
    let splits = patch_splits(state, rows, &tiled);
    has_free(rows.nodes, state.free_group, splits)
}

// Lays a patch whole, or refuses it as 14 or 16 and stores nothing; the answer is the number of dots.
pub fn lay_patch(state: State, rows: &mut RowsMut<'_>, patch: Patch) -> Result<Changed, Refusal>
    requires { IsTree state (held_mut rows.old) × (patch_fits patch ≡ true) }
    ensures same_rows { SameRows rows.old rows.new }
    ensures carried_out { CarriedOut (patch_rule patch) state (held_mut rows.old) (change_state state result) (held_mut rows.new) (change_reply result) }
{
    if !can_lay(state, rows.shared(), patch) {
        return Err(Refusal::PatchTooLarge);
    }
    if !state.can_count(u64::from(dots_number(patch))) {
        return Err(Refusal::TooManyChanges);
    }
    Ok(lay_rows(state, rows, patch))
}
