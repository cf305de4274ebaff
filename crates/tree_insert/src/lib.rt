// Insert, and place by ticket, without the check: the dot goes to the leaf that it routes to, which splits where it is full and may.
#![tactic(auto)]

ghost use Rattle.std.specs.Prelude.{◌≡◌, List, ℕ, ◌+◌, length, replicate};
ghost use Rattle.model.specs.Shapes.{Shape, inserted};
ghost use Rattle.model.specs.Layout.{Holds};
ghost use Rattle.model.specs.Calls.{insert_rule};
ghost use Rattle.model.specs.Tickets.{place_rule};
ghost use Rattle.model.specs.Answers.{change_state, change_reply};
ghost use Rattle.memory.specs.Lent.{held_mut, world_of, SameRows};
ghost use Rattle.tree.specs.Operations.{IsTree, CarriedOut};
ghost use Rattle.tree_insert.specs.Push.{CanPush, pushed};
ghost use Rattle.tree_insert.specs.InsertAt.{Starts, CanInsert};

pub mod ask;
mod landing;
pub mod needed;
mod split;

use crate::landing::land;
use crate::split::{push_place, split_down};
use memory::places::{next_at, set_dot};
use memory::rows::RowsMut;
use model::answers::Changed;
use model::refusal::Refusal;
use model::{Dot, State, Ticket};
use tree::find::Leaf;

// Puts a dot at a place, and the place at the head of a leaf's chain.
fn push_dot(rows: &mut RowsMut<'_>, node: usize, place: u32, dot: Dot)
    requires { CanPush (held_mut rows.old) node place }
    ensures same_rows { SameRows rows.old rows.new }
    ensures pushed { held_mut rows.new ≡ pushed (held_mut rows.old) node place dot }
{
    set_dot(rows.dots, rows.rects, place as usize, dot);
    push_place(rows.nodes, rows.dots, node, place);
}

// Inserts a dot at the leaf that it routes to, with the splits that it needs; the state after it.
fn insert_at(state: State, rows: &mut RowsMut<'_>, dot: Dot, leaf: Leaf, splits: u32) -> State
    requires { CanInsert state dot (held_mut rows.old) leaf splits }
    ensures same_rows { SameRows rows.old rows.new }
    ensures inserted { (marks : List ℕ) (x : Shape)
        → Starts state dot (held_mut rows.old) leaf splits marks x
        → Holds (world_of result (held_mut rows.new) (replicate (length marks) 0)) (inserted dot x) }
{
    let place = state.free_place;
    let rects = &mut *rows.rects;
    let reached = split_down(
        rows.nodes,
        rows.dots,
        rects,
        leaf,
        state.free_group,
        splits,
        dot.rect,
    );
    let next = next_at(rows.shared().dots, place as usize);
    push_dot(rows, reached.node, place, dot);
    state.changed(reached.group, next, state.live + 1)
}

// Inserts a dot: a refusal stores nothing, and the answer is the number of splits.
pub fn insert_dot(state: State, rows: &mut RowsMut<'_>, dot: Dot) -> Result<Changed, Refusal>
    requires { IsTree state (held_mut rows.old) }
    ensures same_rows { SameRows rows.old rows.new }
    ensures carried_out { CarriedOut (insert_rule dot) state (held_mut rows.old) (change_state state result) (held_mut rows.new) (change_reply result) }
{
    let landing = land(state, rows.shared(), dot)?;
    let splits = landing.splits;
    let after = insert_at(state, rows, dot, landing.leaf, splits);
    Ok(Changed {
        state: after,
        number: splits,
    })
}

// Inserts the dot of a ticket (§21.4): refusal 15 comes before those of the insert.
pub fn place_dot(state: State, rows: &mut RowsMut<'_>, ticket: Ticket) -> Result<Changed, Refusal>
    requires { IsTree state (held_mut rows.old) }
    ensures same_rows { SameRows rows.old rows.new }
    ensures carried_out { CarriedOut (place_rule ticket) state (held_mut rows.old) (change_state state result) (held_mut rows.new) (change_reply result) }
{
    if ticket.changes != state.changes {
        return Err(Refusal::StaleTicket);
    }
    let dot = ticket.dot;
    insert_dot(state, rows, dot)
}
