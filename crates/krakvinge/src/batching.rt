// The batch on rows of words. A record is seven words: kind, id, x1, y1, x2, y2, ink; a negative number has 4294967296 added.
ghost use Rattle.std.specs.Prelude.{[]};
ghost use Rattle.host_rows.specs.Records.{records_in};
ghost use Rattle.krakvinge.specs.Exports.{lent, Batches};

use batch::batch;
use batch_step::all::Records;
use host_rows::answers::refused;
use host_rows::records::{batch_fits, record_in};
use host_rows::rows::{state_in, state_out};
use memory::rows::RowsMut;
use model::Record;
use model::refusal::Refusal;

// The records of a row of words.
#[derive(Clone, Copy)]
pub struct WordRecords<'a> {
    pub words: &'a [u32],
}

impl<'a> Records for WordRecords<'a> {
    ghost list = { λ lent. records_in lent.words.now };

    fn count(&self) -> usize {
        self.words.len() / 7
    }

    fn at(&self, i: usize) -> Record {
        record_in(self.words, i)
    }
}

// Carries out the records in order, each with a word in a row of answers as long: splits, 1 or 0, or 4294967040 + refusal.
#[unsafe(no_mangle)]
pub extern "C" fn krakvinge_batch(
    state: &mut [u32],
    nodes: &mut [u32],
    dots: &mut [u32],
    rects: &mut [i32],
    marks: &mut [u8],
    records: &[u32],
    answers: &mut [u32],
) -> u64
    ensures { Batches records.now
        (lent state.old nodes.old dots.old rects.old marks.old []) answers.old
        (lent state.new nodes.new dots.new rects.new marks.new []) answers.new result }
{
    if !batch_fits(state, records) {
        return refused(Refusal::BadLengths);
    }
    let before = state_in(state);
    let lent = WordRecords { words: records };
    let mut rows = RowsMut { nodes, dots, rects };
    match batch(&lent, before, answers, &mut rows, marks) {
        Err(refusal) => refused(refusal),
        Ok(done) => {
            state_out(state, done.state);
            0
        }
    }
}
