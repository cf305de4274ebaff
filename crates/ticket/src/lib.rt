// What the lines of a ticket are answered (specs/), and what a program carries from one line to the next.
#![tactic(auto)]

ghost use Rattle.std.specs.Prelude.{◌≡◌, length};
ghost use Rattle.ticket.specs.First.{going};
ghost use Rattle.ticket.specs.Room.{Room};

use memory::rows::RowsMut;
use model::State;

// The programs that answer a ticket.
#[derive(Clone, Copy)]
pub enum Program {
    Dotcheck,
    Gridreport,
}

// The rows that a program works in: the tree's and their marks, the words of an answer, its bytes. They have room for its longest answer.
// A lifetime for each: so a caller may lend rows of its own callers, and knows what they hold afterwards.
#[derive(Drop)]
pub struct Workspace<'r, 't, 'm, 'w, 'o> {
    pub program: Program,
    pub rows: &'t mut RowsMut<'r>,
    pub marks: &'m mut [u8],
    pub row: &'w mut [u32],
    pub out: &'o mut [u8],
    ghost room: { Room program (length row.now) (length out.now) },
}

impl Workspace<'_, '_, '_, '_, '_> {
    // The bytes, for reading.
    pub fn bytes(&self) -> &[u8]
        ensures { result.now ≡ self.now.out.now }
    {
        self.out
    }
}

// The state that a program goes on with after a line, and where the answer's bytes end. A line that may be the last has an Option of a state.
#[derive(Clone, Copy)]
pub struct Step<S> {
    pub state: S,
    pub next: usize,
}

impl Step<State> {
    // Of a line that may be the last and is not.
    pub fn goes_on(self) -> Step<Option<State>>
        ensures { result ≡ going self.state self.next }
    {
        Step {
            state: Some(self.state),
            next: self.next,
        }
    }
}

// Before the first line, on a tree, at the end, or after an answer that could not be written.
#[derive(Clone, Copy)]
pub enum Phase {
    First,
    Going(State),
    Ended,
    Failed,
}
