// A batch's records as a row of words, seven each: kind, id, x1, y1, x2, y2, ink.
ghost use Rattle.std.specs.Prelude.{◌≡◌, ◌+◌, ◌*◌, ◌<◌, length};
ghost use Rattle.host_rows.specs.Records.{record_in, batch_fits};

use crate::rows::dot_in;
use model::Record;

// The record of place i.
pub fn record_in(records: &[u32], i: usize) -> Record
    requires { 7 * i + 6 < length records.now }
    ensures { result ≡ record_in records.now i }
{
    let at = 7 * i;
    let dot = dot_in(records, at + 1);
    Record {
        kind: records[at],
        dot,
    }
}

// Whether the state row has its length, and the records' row seven words for each.
#[tactic(auto, unfolding(crate::specs::Records::batch_fits))]
pub fn batch_fits(state: &[u32], records: &[u32]) -> bool
    ensures { result ≡ batch_fits state.now records.now }
{
    (state.len() == 12) & (records.len() % 7 == 0)
}
