// A row that a walk writes to as far as it goes.
ghost use Rattle.std.specs.Prelude.{◌≡◌, set};

// Writes a word at a position of the row; past its end none is written.
pub fn keep<T: Copy>(row: &mut [T], at: usize, word: T)
    ensures { row.new ≡ set row.old at word }
{
    if at < row.len() {
        row[at] = word;
    }
}
