// The counts of a grid's windows stand in a row, rows downward: what a rectangle adds to them.
ghost use Rattle.std.specs.Prelude.{◌≡◌, true, ◌*◌, ◌≤◌, length};
ghost use Rattle.grid.specs.Grids.{windows, sizes_fit};
ghost use Rattle.tree_grid.specs.Counts.{Added, Room, between, cells};

use geometry::aabb::AABB;
use grid::grid::{Grid, Span};

// Adds to the words from a place on and before another. By their numbers, since `row[from..to]` would ask that from is no larger than to.
fn add_between(row: &mut [u32], from: usize, to: usize, weight: u32)
    requires { (to ≤ length row.old) × Room from to weight row.old }
    ensures { Added row.old (between from to weight) row.new }
{
    for i in from..to {
        row[i] += weight;
    }
}

// Adds to the words of these columns in each of these rows.
fn add_cells(row: &mut [u32], columns: usize, across: Span, down: Span, weight: u32)
    requires { (1 ≤ columns) × (across.to ≤ columns) × (columns * down.to ≤ length row.old) × Room 0 (columns * down.to) weight row.old }
    ensures { Added row.old (cells columns across down weight) row.new }
{
    let first = across.from as usize;
    let past = across.to as usize;
    let end = down.to as usize;
    for line in down.from as usize..end {
        let start = columns * line;
        add_between(row, start + first, start + past, weight);
    }
}

// A grid, and a row that has a word for each of its windows.
#[derive(Drop)]
pub struct Counts<'a> {
    pub grid: Grid,
    pub row: &'a mut [u32],
    pub ghost sized: { sizes_fit grid ≡ true },
    pub ghost room: { windows grid ≤ length row.now },
}

impl Counts<'_> {
    ghost use Rattle.tree_grid.specs.Passes.{RectAdded};

    // Adds a rectangle as often as its weight says to the windows that it meets; answers how many these are, by arithmetic.
    #[tactic(auto, using(crate::proofs::Laws::Rects::rect_weighs))]
    pub fn add_rect(&mut self, rect: AABB, weight: u32) -> u64
        requires { (weight ≤ 65536) × Room 0 (windows self.old.grid) weight self.old.row.now }
        ensures { RectAdded rect weight self.old self.new result }
    {
        let grid = self.grid;
        let across = grid.columns_met(rect);
        let down = grid.rows_met(rect);
        let met = u64::from(across.length()) * u64::from(down.length());
        add_cells(self.row, grid.column_count() as usize, across, down, weight);
        u64::from(weight) * met
    }
}
