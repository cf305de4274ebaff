// What an exported call writes and returns, for each answer. A refusal leaves the rows as they were.
ghost use Rattle.std.specs.Prelude.{◌≡◌, List, ℕ, length};
ghost use Rattle.model.specs.Refusals.{reply};
ghost use Rattle.model.specs.Answers.{make_reply, change_reply, change_state, yes_no_reply, yes_no_state, ask_reply};
ghost use Rattle.host_rows.specs.Rows.{CountFits, state_in};
ghost use Rattle.host_rows.specs.Tickets.{ticket_row};
ghost use Rattle.host_rows.specs.Answers.{number, yes_or_no, splits_told, hits_opened, wide, refused_result, result_of, state_row, made_row, Out};

use crate::rows::state_out;
use crate::tickets::ticket_out;
use model::State;
use model::answers::{Asked, Changed, Found};
use model::refusal::Refusal;
use words::{high_word, low_word};

// An answer as two words (§18.4).
pub trait Words {
    ghost words: { Self → List ℕ };

    fn words(self) -> [u32; 2]
        ensures { result ≡ words self };
}

// A number that fits a word: of splits, of dots, of ids, of leaves.
impl Words for u32 {
    ghost words = { number };

    fn words(self) -> [u32; 2] {
        [self, 0]
    }
}

// The total of a grid report, its low word first.
impl Words for u64 {
    ghost words = { wide };

    fn words(self) -> [u32; 2] {
        [low_word(self), high_word(self)]
    }
}

// 1 for yes or 0 for no, 0.
impl Words for bool {
    ghost words = { yes_or_no };

    fn words(self) -> [u32; 2] {
        [u32::from(self), 0]
    }
}

// Hits, opened.
impl Words for Found {
    ghost words = { hits_opened };

    fn words(self) -> [u32; 2] {
        [self.hits, self.opened]
    }
}

// What a call returns that was refused (§18.3).
pub fn refused(refusal: Refusal) -> u64
    ensures { result ≡ refused_result refusal }
{
    match refusal {
        Refusal::ShortRow(many) => 8 + 256 * u64::from(many),
        _ => u64::from(refusal.number()),
    }
}

// Of a call that leaves the state as it was: its answer's words.
pub fn answer_out<T: Words>(answer: &mut [u32], done: Result<T, Refusal>) -> u64
    requires { length answer.old ≡ 2 }
    ensures { Out T.words (reply (λ told. told) done) answer.old answer.new result }
{
    match done {
        Err(refusal) => refused(refusal),
        Ok(told) => {
            answer.copy_from_slice(&told.words());
            0
        }
    }
}

// Of make: nothing beside the state.
pub fn make_out(state: &mut [u32], done: Result<State, Refusal>) -> u64
    requires { length state.old ≡ 12 }
    ensures { (state.new ≡ made_row done state.old) × (result ≡ result_of (make_reply done)) }
{
    match done {
        Err(refusal) => refused(refusal),
        Ok(made) => {
            state_out(state, made);
            0
        }
    }
}

// Of an insert, a placing and a patch: the number of splits or of dots laid.
pub fn change_out(state: &mut [u32], answer: &mut [u32], done: Result<Changed, Refusal>) -> u64
    requires { (length state.old ≡ 12) × (length answer.old ≡ 2) }
    ensures { (state.new ≡ state_row (change_state (state_in state.old) done) state.old (change_reply done))
        × Out number (change_reply done) answer.old answer.new result }
{
    if let Ok(changed) = done {
        state_out(state, changed.state);
    }
    answer_out(answer, done.map(|changed| changed.number))
}

// Of a remove and of a cleanup: yes or no.
#[tactic(auto, using(crate::proofs::Laws::Rows::keeps_state))]
pub fn yes_no_out(
    state: &mut [u32],
    answer: &mut [u32],
    done: Result<Option<State>, Refusal>,
) -> u64
    requires { (length state.old ≡ 12) × (length answer.old ≡ 2) × CountFits state.old 10 }
    ensures { (state.new ≡ state_row (yes_no_state (state_in state.old) done) state.old (yes_no_reply done))
        × Out yes_or_no (yes_no_reply done) answer.old answer.new result }
{
    if let Ok(Some(after)) = done {
        state_out(state, after);
    }
    answer_out(answer, done.map(|after| after.is_some()))
}

// Of an ask: the splits; and its ticket in a row of its own.
pub fn ask_out(ticket: &mut [u32], answer: &mut [u32], done: Result<Asked, Refusal>) -> u64
    requires { (length ticket.old ≡ 8) × (length answer.old ≡ 2) }
    ensures { (ticket.new ≡ ticket_row (ask_reply done) ticket.old)
        × Out splits_told (ask_reply done) answer.old answer.new result }
{
    if let Ok(asked) = done {
        ticket_out(ticket, asked.ticket);
    }
    answer_out(answer, done.map(|asked| asked.splits))
}
