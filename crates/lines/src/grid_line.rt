// The line of a grid: its letter and six integers.
ghost use Rattle.lines.specs.Grids.{GridLineOf};

use crate::field::Fields;
use grid::grid::Grid;

// The grid of a line, without its LF.
pub fn read_grid(line: &[u8]) -> Option<Grid>
    ensures { GridLineOf line.now result }
{
    if line.len() > 80 {
        return None;
    }
    let [b'G', rest @ ..] = line else {
        return None;
    };
    let mut fields = Fields { rest };
    let first = fields.rect()?;
    let columns = fields.integer()?;
    let rows = fields.integer()?;
    let grid = Grid {
        x: first.x1,
        y: first.y1,
        width: first.x2,
        height: first.y2,
        columns,
        rows,
    };
    fields.is_empty().then_some(grid)
}
