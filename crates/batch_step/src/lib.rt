// The steps of a batch: the check of all that it is lent, then record after record.
#![tactic(auto)]

pub mod all;

ghost use Rattle.std.specs.Prelude.{◌≡◌, ◌<◌, length};
ghost use Rattle.model.specs.declared.Dot.{Dot};
ghost use Rattle.model.specs.Calls.{carry_out, refused_word, yes_no};
ghost use Rattle.model.specs.Refusals.{number_of, refusal_number};
ghost use Rattle.model.specs.Answers.{change_reply, change_state, yes_no_reply, yes_no_state};
ghost use Rattle.memory.specs.Lent.{held, held_mut, SameRows};
ghost use Rattle.tree.specs.Operations.{IsTree};
ghost use Rattle.batch_step.specs.Steps.{record_of, reply_word, RecordCarriedOut, Stepped, Begun};

use memory::rows::{Rows, RowsMut};
use model::answers::Changed;
use model::refusal::Refusal;
use model::{Dot, Kind, Record, State};
use tree_check::check::check;
use tree_cleanup::cleanup_tree;
use tree_insert::insert_dot;
use tree_remove::remove_dot;

// What a record leaves: its answer word, and the state after it.
#[derive(Clone, Copy)]
pub struct Recorded {
    pub word: u32,
    pub state: State,
}

// The answer word of a refusal.
fn refused_word(refusal: Refusal) -> u32
    ensures { result ≡ refused_word (number_of refusal) }
{
    4294967040 + refusal.number()
}

// An insert's answer, as its record leaves it.
fn splits_record(state: State, answer: Result<Changed, Refusal>) -> Recorded
    ensures { (result.word ≡ reply_word (λ splits. splits) (change_reply answer)) × (result.state ≡ change_state state answer) }
{
    match answer {
        Err(refusal) => Recorded {
            word: refused_word(refusal),
            state,
        },
        Ok(inserted) => Recorded {
            word: inserted.number,
            state: inserted.state,
        },
    }
}

// A remove's or a cleanup's answer, as its record leaves it.
fn said_record(state: State, answer: Result<Option<State>, Refusal>) -> Recorded
    ensures { (result.word ≡ reply_word yes_no (yes_no_reply answer)) × (result.state ≡ yes_no_state state answer) }
{
    match answer {
        Err(refusal) => Recorded {
            word: refused_word(refusal),
            state,
        },
        Ok(Some(next)) => Recorded {
            word: 1,
            state: next,
        },
        Ok(None) => Recorded { word: 0, state },
    }
}

// An insert, with its answer word.
fn insert_record(state: State, rows: &mut RowsMut<'_>, dot: Dot) -> Recorded
    requires { IsTree state (held_mut rows.old) }
    ensures same_rows { SameRows rows.old rows.new }
    ensures carried_out { RecordCarriedOut (carry_out (record_of 0 dot)) state (held_mut rows.old) result.state (held_mut rows.new) result.word }
{
    let answer = insert_dot(state, rows, dot);
    splits_record(state, answer)
}

// A remove, with its answer word.
fn remove_record(state: State, rows: &mut RowsMut<'_>, dot: Dot) -> Recorded
    requires { IsTree state (held_mut rows.old) }
    ensures same_rows { SameRows rows.old rows.new }
    ensures carried_out { RecordCarriedOut (carry_out (record_of 1 dot)) state (held_mut rows.old) result.state (held_mut rows.new) result.word }
{
    let answer = remove_dot(state, rows, dot.id, dot.rect);
    said_record(state, answer)
}

// A cleanup, with its answer word; its record's dot is not looked at.
fn cleanup_record(state: State, rows: &mut RowsMut<'_>) -> Recorded
    requires { IsTree state (held_mut rows.old) }
    ensures same_rows { SameRows rows.old rows.new }
    ensures carried_out { (dot : Dot) → RecordCarriedOut (carry_out (record_of 2 dot)) state (held_mut rows.old)
        result.state (held_mut rows.new) result.word }
{
    let answer = cleanup_tree(state, rows.nodes);
    said_record(state, answer)
}

// A record is the single operation of its kind.
fn carry_out(state: State, rows: &mut RowsMut<'_>, record: Record) -> Recorded
    requires { IsTree state (held_mut rows.old) }
    ensures same_rows { SameRows rows.old rows.new }
    ensures carried_out { RecordCarriedOut (carry_out «record») state (held_mut rows.old) result.state (held_mut rows.new) result.word }
{
    let dot = record.dot;
    match Kind::from(record.kind) {
        Kind::Insert => insert_record(state, rows, dot),
        Kind::Remove => remove_record(state, rows, dot),
        Kind::Cleanup => cleanup_record(state, rows),
        Kind::Unknown => Recorded {
            word: refused_word(Refusal::UnknownKind),
            state,
        },
    }
}

// Carries out the record of place i, and writes its answer word; the state after it.
pub fn one(
    state: State,
    record: Record,
    i: usize,
    answers: &mut [u32],
    rows: &mut RowsMut<'_>,
) -> State
    requires { IsTree state (held_mut rows.old) × (i < length answers.old) }
    ensures same_rows { SameRows rows.old rows.new }
    ensures stepped { Stepped «record» i state answers.old (held_mut rows.old) result answers.new (held_mut rows.new) }
{
    let done = carry_out(state, rows, record);
    answers[i] = done.word;
    // The settings are those before, so that a batch copies them once.
    state.followed_by(done.state)
}

// Refusals 1 to 3: rows of unequal length, then the check's.
pub fn begin(
    records: usize,
    words: usize,
    state: State,
    rows: Rows<'_>,
    marks: &mut [u8],
) -> Result<(), Refusal>
    ensures { Begun records words state (held rows.entry) marks.old marks.new (refusal_number result) }
{
    if records != words {
        return Err(Refusal::BadLengths);
    }
    check(state, rows, marks)
}
