// The dots of a patch, counted by the sums of one tile: no loop, whatever the patch's size.
ghost use Rattle.std.specs.Prelude.{◌≡◌, true, ◌≤◌, length, min};
ghost use Rattle.arithmetic.specs.Ints.{natural};
ghost use Rattle.geometry.specs.Settings.{axis_fits, in_range};
ghost use Rattle.model.specs.Patch.{patch_fits, patch_rects, patch_dots, ids_fit};
ghost use Rattle.model.specs.Thresholds.{count_before};
ghost use Rattle.tint.specs.Counts.{dots_between, corners_within, within_bounds, unit_upto, unit_bounds};

use crate::sums::TiledPatch;
use geometry::bounds::Bounds;
use geometry::settings::Settings;
use model::patch::Patch;
use std::ops::Range;

// How many of so many corners lie less than a distance after the first.
fn corners_before(distance: i64, number: u32) -> u32
    ensures { result ≡ min (natural distance) number }
{
    distance.clamp(0, i64::from(number)) as u32
}

// The columns or the rows whose one-unit dots lie within the bounds of an axis: their corners lie strictly between them.
fn corners_within(first: i32, over: i32, upto: i32, number: u32) -> Range<u32>
    ensures { result ≡ corners_within first over upto number }
{
    let from = corners_before(arithmetic::difference(over, first) + 1, number);
    let to = corners_before(arithmetic::difference(upto, first), number);
    from..to
}

impl TiledPatch<'_> {
    // The dots left of a column and above a row: those of whole tiles, and of the rest beside and below them.
    fn dots_before(&self, column: u32, row: u32) -> u32
        requires { (column ≤ 1024) × (row ≤ 1024) }
        ensures { result ≡ count_before self.now.patch.tint column row }
    {
        let sums = self.sums;
        let tint = self.patch.tint;
        let across = column / 16;
        let down = row / 16;
        let c = (column % 16) as usize;
        let r = (row % 16) as usize;
        down * (across * tint + sums[272 + c]) + (across * sums[17 * r + 16] + sums[17 * r + c])
    }

    // The dots in a span of columns and a span of rows.
    fn dots_between(&self, across: Range<u32>, down: Range<u32>) -> u32
        requires { (across.end ≤ 1024) × (down.end ≤ 1024) }
        ensures { result ≡ dots_between self.now.patch.tint across down }
    {
        if across.is_empty() | down.is_empty() {
            return 0;
        }
        let whole = self.dots_before(across.end, down.end);
        let corner = self.dots_before(across.start, down.start);
        let left = self.dots_before(across.start, down.end);
        let above = self.dots_before(across.end, down.start);
        (whole + corner) - (left + above)
    }

    // The dots of the patch within bounds.
    pub fn dots_within(&self, bounds: Bounds) -> u32
        ensures { result ≡ length (within_bounds bounds (patch_rects self.now.patch)) }
    {
        let patch = self.patch;
        let across = corners_within(patch.x, bounds.x_over, bounds.x_upto, 16 * patch.columns);
        let down = corners_within(patch.y, bounds.y_over, bounds.y_upto, 16 * patch.rows);
        self.dots_between(across, down)
    }
}

// The bound above for a one-unit dot on one axis of the root.
fn unit_upto(low: i32, size: i32) -> i32
    requires { axis_fits low size ≡ true }
    ensures { result ≡ unit_upto low size }
{
    (low + size + 1).min(1073741823)
}

// The bounds within which a one-unit dot is acceptable.
pub fn unit_bounds(settings: Settings) -> Bounds
    requires { in_range settings ≡ true }
    ensures { result ≡ unit_bounds settings }
{
    Bounds {
        x_over: settings.left - 1,
        x_upto: unit_upto(settings.left, settings.width),
        y_over: settings.top - 1,
        y_upto: unit_upto(settings.top, settings.height),
    }
}

// How many dots a patch has (§20.2): the tint's number in each tile.
pub fn dots_number(patch: Patch) -> u32
    requires { patch_fits patch ≡ true }
    ensures { result ≡ length (patch_dots patch) }
{
    patch.rows * (patch.columns * patch.tint)
}

// Whether no id lies past 4294967295 (§20.5).
pub fn ids_fit(patch: Patch) -> bool
    requires { patch_fits patch ≡ true }
    ensures { result ≡ ids_fit (patch_dots patch) }
{
    u64::from(patch.first_id) + u64::from(dots_number(patch)) <= 4294967296
}
