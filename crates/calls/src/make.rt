// Make: the lent rows become a fresh tree, whatever they held.
ghost use Rattle.model.specs.declared.State.{State};
ghost use Rattle.model.specs.Calls.{Make};
ghost use Rattle.model.specs.Answers.{make_reply, make_state};
ghost use Rattle.memory.specs.Lent.{held_mut, world_of, SameRows};

use geometry::settings::Settings;
use memory::fresh::make_fresh;
use memory::lengths::lengths_fit;
use memory::rows::{Rows, RowsMut};
use model::State;
use model::refusal::Refusal;

// Refusals 1 and 2 write nothing.
pub fn make(settings: Settings, rows: &mut RowsMut<'_>, marks: &mut [u8]) -> Result<State, Refusal>
    ensures same_rows { SameRows rows.old rows.new }
    ensures makes { (before : State) → Make (world_of before (held_mut rows.old) marks.old)
        settings (world_of (make_state before result) (held_mut rows.new) marks.new) (make_reply result) }
{
    let Rows { nodes, dots, rects } = rows.shared();
    if !lengths_fit(nodes.len(), dots.len(), rects.len(), marks.len()) {
        return Err(Refusal::BadLengths);
    }
    if !settings.in_range() {
        return Err(Refusal::BadSettings);
    }
    Ok(make_fresh(settings, rows, marks))
}
