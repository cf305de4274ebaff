// The batch: records are carried out in order, each with an answer word in a row as long.
#![tactic(auto)]

ghost use Rattle.std.specs.Prelude.{◌≡◌};
ghost use Rattle.model.specs.Calls.{Batch};
ghost use Rattle.model.specs.Refusals.{refusal_number};
ghost use Rattle.memory.specs.Lent.{held_mut, world_of, SameRows};
ghost use Rattle.batch.specs.Answers.{batch_reply, batch_state, carried_out, carried_out_by};

use batch_step::all::{Records, carry_out_all};
use batch_step::begin;
use memory::rows::RowsMut;
use model::refusal::Refusal;
use model::{Record, State};

// The records of a lent row.
#[derive(Clone, Copy)]
pub struct LentRecords<'a> {
    pub records: &'a [Record],
}

impl<'a> Records for LentRecords<'a> {
    ghost list = { λ lent. lent.records.now };

    fn count(&self) -> usize {
        self.records.len()
    }

    fn at(&self, i: usize) -> Record {
        self.records[i]
    }
}

// What a batch tells that is not refused as a whole: how many records it carried out, and the state after them.
#[derive(Clone, Copy)]
pub struct Batched {
    pub count: usize,
    pub state: State,
}

// The check once, then every record: a refused one writes its answer word and nothing else, and those after it go on.
pub fn batch<R: Records>(
    records: &R,
    state: State,
    answers: &mut [u32],
    rows: &mut RowsMut<'_>,
    marks: &mut [u8],
) -> Result<Batched, Refusal>
    ensures same_rows { SameRows rows.old rows.new }
    ensures obeys { Batch (world_of state (held_mut rows.old) marks.old) (R.list records.now)
        answers.old (world_of (batch_state state result) (held_mut rows.new) marks.new)
        answers.new (batch_reply result) }
    ensures count { carried_out result ≡ carried_out_by (R.list records.now) (refusal_number result) }
{
    let count = records.count();
    begin(count, answers.len(), state, rows.shared(), marks)?;
    let after = carry_out_all(records, state, answers, rows);
    Ok(Batched {
        count,
        state: after,
    })
}
