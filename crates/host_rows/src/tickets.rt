// A ticket as a row of eight words: its dot's six, and the count of changes, the low word first.
ghost use Rattle.std.specs.Prelude.{◌≡◌, ◌<◌, length};
ghost use Rattle.host_rows.specs.Tickets.{ticket_in, with_dot, ticket_words, ticket_fits};

use crate::rows::{dot_in, wide_in, wide_out};
use model::{Dot, Ticket};
use words::word_of;

pub fn ticket_in(ticket: &[u32]) -> Ticket
    requires { length ticket.now ≡ 8 }
    ensures { result ≡ ticket_in ticket.now }
{
    let dot = dot_in(ticket, 0);
    let changes = wide_in(ticket, 6);
    Ticket { dot, changes }
}

// The six words of a dot at the beginning of a row.
fn dot_out(row: &mut [u32], dot: Dot)
    requires { 5 < length row.old }
    ensures { row.new ≡ with_dot dot row.old }
{
    let rect = dot.rect;
    let x1 = word_of(rect.x1);
    let y1 = word_of(rect.y1);
    let x2 = word_of(rect.x2);
    let y2 = word_of(rect.y2);
    row[0] = dot.id;
    row[1] = x1;
    row[2] = y1;
    row[3] = x2;
    row[4] = y2;
    row[5] = dot.ink;
}

pub fn ticket_out(row: &mut [u32], ticket: Ticket)
    requires { length row.old ≡ 8 }
    ensures { row.new ≡ ticket_words ticket }
{
    let dot = ticket.dot;
    dot_out(row, dot);
    wide_out(row, 6, ticket.changes);
}

// Whether the three rows have their lengths.
#[tactic(auto, unfolding(crate::specs::Tickets::ticket_fits))]
pub fn ticket_fits(state: &[u32], answer: &[u32], ticket: &[u32]) -> bool
    ensures { result ≡ ticket_fits state.now answer.now ticket.now }
{
    (state.len() == 12) & (answer.len() == 2) & (ticket.len() == 8)
}
