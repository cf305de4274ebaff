// Ask, and place by ticket, on numbers and lent rows. A ticket is a row of eight words.
ghost use Rattle.host_rows.specs.Rows.{rect_of};
ghost use Rattle.krakvinge.specs.Exports.{lent, Asks, Places};

use calls::ask::ask;
use calls::place::place;
use geometry::aabb::AABB;
use host_rows::answers::{ask_out, change_out, refused};
use host_rows::rows::state_in;
use host_rows::tickets::{ticket_fits, ticket_in};
use memory::rows::{Rows, RowsMut};
use model::Dot;
use model::refusal::Refusal;

// What the insert of a dot would do; the answer is the number of splits, and the ticket row is written.
#[unsafe(no_mangle)]
pub extern "C" fn krakvinge_ask(
    state: &[u32],
    nodes: &[u32],
    dots: &[u32],
    rects: &[i32],
    marks: &mut [u8],
    id: u32,
    x1: i32,
    y1: i32,
    x2: i32,
    y2: i32,
    ink: u32,
    ticket: &mut [u32],
    answer: &mut [u32],
) -> u64
    ensures { Asks (record { id = id; rect = rect_of x1 y1 x2 y2; ink = ink })
        (lent state.now nodes.now dots.now rects.now marks.old answer.old)
        ticket.old (lent state.now nodes.now dots.now rects.now marks.new
        answer.new) ticket.new result }
{
    if !ticket_fits(state, answer, ticket) {
        return refused(Refusal::BadLengths);
    }
    let before = state_in(state);
    let rect = AABB { x1, y1, x2, y2 };
    let done = ask(
        before,
        Rows { nodes, dots, rects },
        marks,
        Dot { id, rect, ink },
    );
    ask_out(ticket, answer, done)
}

// The insert of a ticket's dot, as long as nothing was changed since the ask; the answer is the number of splits.
#[unsafe(no_mangle)]
pub extern "C" fn krakvinge_place(
    state: &mut [u32],
    nodes: &mut [u32],
    dots: &mut [u32],
    rects: &mut [i32],
    marks: &mut [u8],
    ticket: &[u32],
    answer: &mut [u32],
) -> u64
    ensures { Places ticket.now
        (lent state.old nodes.old dots.old rects.old marks.old answer.old)
        (lent state.new nodes.new dots.new rects.new marks.new answer.new) result }
{
    if !ticket_fits(state, answer, ticket) {
        return refused(Refusal::BadLengths);
    }
    let before = state_in(state);
    let given = ticket_in(ticket);
    let mut rows = RowsMut { nodes, dots, rects };
    let done = place(before, &mut rows, marks, given);
    change_out(state, answer, done)
}
