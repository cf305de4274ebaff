// All records of a batch, one after another.
ghost use Rattle.std.specs.Prelude.{◌≡◌, List, ◌<◌, ◌≤◌, length, get_or};
ghost use Rattle.model.specs.declared.Record.{Record};
ghost use Rattle.memory.specs.Lent.{held_mut, SameRows};
ghost use Rattle.tree.specs.Operations.{IsTree};
ghost use Rattle.batch_step.specs.Steps.{no_record};
ghost use Rattle.batch_step.specs.Runs.{AllCarriedOut};

use crate::one;
use memory::rows::RowsMut;
use model::{Record, State};

// The records of a batch, in whatever form they are lent.
pub trait Records {
    ghost list: { Self → List Record };

    // How many there are.
    fn count(&self) -> usize
        ensures { result ≡ length (list self.now) };

    // The record of place i.
    fn at(&self, i: usize) -> Record
        requires { i < length (list self.now) }
        ensures { result ≡ get_or (list self.now) i no_record };
}

// Carries out every record, with its answer word in its place of the row; the state after them. One that is refused changes nothing else.
pub fn carry_out_all<R: Records>(
    records: &R,
    state: State,
    answers: &mut [u32],
    rows: &mut RowsMut<'_>,
) -> State
    requires { IsTree state (held_mut rows.old) × (length (R.list records.now) ≤ length answers.old) }
    ensures same_rows { SameRows rows.old rows.new }
    ensures carried_out { AllCarriedOut (R.list records.now) state answers.old (held_mut rows.old) result answers.new (held_mut rows.new) }
{
    let mut after = state;
    for i in 0..records.count() {
        after = one(after, records.at(i), i, answers, rows);
    }
    after
}
