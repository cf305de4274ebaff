// Where a patch has dots.
ghost use Rattle.std.specs.Prelude.{◌≡◌, ◌*◌, ◌≤◌, ltb};
ghost use Rattle.model.specs.Thresholds.{threshold_at};
ghost use Rattle.tint.specs.Rows.{NextDot};

use crate::table::THRESHOLDS;
use model::patch::Patch;

// The table that is read: of a static, a read of an element copies no other.
static TABLE: [u8; 256] = THRESHOLDS;

// The threshold at a column and a row of a patch (docs/SPECIFICATION.md §20.2).
#[tactic(auto, unfolding(model::specs::Thresholds::thresholds, model::specs::Thresholds::threshold_at))]
pub fn threshold_at(column: u32, row: u32) -> u8
    ensures { result ≡ threshold_at column row }
{
    TABLE[(16 * (row % 16) + column % 16) as usize]
}

// Whether there is a dot (§20.3).
pub fn has_dot(tint: u32, column: u32, row: u32) -> bool
    ensures { result ≡ ltb (threshold_at column row) tint }
{
    u32::from(threshold_at(column, row)) < tint
}

// The first column from one on that has a dot in a row, or the row's end. The thresholds repeat, so that a tile's columns are enough to look at.
pub fn next_dot(patch: Patch, column: u32, row: u32) -> u32
    requires { (patch.columns ≤ 64) × (column ≤ 16 * patch.columns) }
    ensures { NextDot patch column row result }
{
    let width = 16 * patch.columns;
    let end = width.min(column + 16);
    (column..end)
        .find(|&at| has_dot(patch.tint, at, row))
        .unwrap_or(width)
}
