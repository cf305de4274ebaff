// The grid report on a memory that is a tree.
ghost use Rattle.model.specs.Answers.{number_reply};
ghost use Rattle.tree.specs.Operations.{HasRects};
ghost use Rattle.tree_grid.specs.Answers.{Totalled, Reported};
ghost use Rattle.tree_grid.specs.Passes.{SameCounts};

use crate::counts::Counts;
use geometry::aabb::AABB;
use grid::grid::Grid;
use model::State;
use model::refusal::Refusal;

impl Counts<'_> {
    // The counts, with which the row then begins; answers the total.
    fn count_windows(&mut self, state: State, rects: &[i32]) -> u64
        requires { HasRects state rects.now }
        ensures same { SameCounts self.old self.new }
        ensures totalled { Totalled state rects.now self.old.grid self.old.row.now self.new.row.now result }
    {
        let places = rects.len() / 4;
        let windows = self.grid.windows();
        self.row[..windows as usize].fill(0);
        let pass = self.add_places(rects, places);
        let free = places as u32 - state.live;
        pass.total + self.add_rect(AABB::default(), pass.zeros - free)
    }
}

// Refusals 11, 12 and 8, else the counts and the total.
pub fn report_row(state: State, rects: &[i32], grid: Grid, row: &mut [u32]) -> Result<u64, Refusal>
    requires { HasRects state rects.now }
    ensures { Reported state rects.now grid row.old row.new (number_reply result) }
{
    if !grid.sizes_fit() {
        return Err(Refusal::BadGrid);
    }
    if !grid.corner_fits() {
        return Err(Refusal::FarCorner);
    }
    let windows = grid.windows();
    if row.len() < windows as usize {
        return Err(Refusal::ShortRow(windows));
    }
    let mut counts = Counts { grid, row };
    Ok(counts.count_windows(state, rects))
}
