// What the calls answer, in one type from the operation on the tree to the host. A call that is refused answers a `Refusal` in its place: make a `State`;
// insert, place and patch `Changed`; remove and cleanup the state after a yes, or none for a no; ask `Asked`; query and collect_ids `Found`; all, leaves and
// references a number; the grid report the total.
use crate::{State, Ticket};

// The number that a change tells, of splits or of dots laid; and the state after it.
#[derive(Clone, Copy)]
pub struct Changed {
    pub state: State,
    pub number: u32,
}

// What an ask tells: the splits that the insert would make, and the ticket for it.
#[derive(Clone, Copy)]
pub struct Asked {
    pub splits: u32,
    pub ticket: Ticket,
}

// What a query finds: how many dots it meets, and how many nodes it opens.
#[derive(Clone, Copy)]
pub struct Found {
    pub hits: u32,
    pub opened: u32,
}
