// The dots of a patch, laid by one insert after another. That none of them is refused has been found before the first.
ghost use Rattle.std.specs.Prelude.{◌≡◌, suc, ◌<◌, ◌*◌, ◌≤◌, pos, ◌+ℤ◌};
ghost use Rattle.std.specs.Int.{w32};
ghost use Rattle.std.proofs.Common.{SFits};
ghost use Rattle.memory.specs.Lent.{held_mut, SameRows};
ghost use Rattle.tree_patch.specs.Laid.{DotAt, patch_dot, DotFits, none_laid, SomeProgress, Proceeds};

use geometry::aabb::AABB;
use memory::rows::RowsMut;
use model::answers::Changed;
use model::patch::Patch;
use model::{Dot, State};
use tint::thresholds::next_dot;
use tree_insert::insert_dot;

// A corner so many units along.
fn along(first: i32, units: u32) -> i32
    requires { (units ≤ 2147483647) × SFits w32 (first +ℤ pos units) }
    ensures { result ≡ first +ℤ pos units }
{
    first + units.cast_signed()
}

// The dot at a column and a row of a patch, after so many others.
fn dot_at(patch: Patch, column: u32, row: u32, number: u32) -> Dot
    requires { DotFits patch column row number }
    ensures { result ≡ patch_dot patch column row number }
{
    let x = along(patch.x, column);
    let y = along(patch.y, row);
    let rect = AABB {
        x1: x,
        y1: y,
        x2: along(x, 1),
        y2: along(y, 1),
    };
    Dot {
        id: patch.first_id + number,
        rect,
        ink: 0,
    }
}

// Lays the dot at a column and a row. Its insert is not refused.
fn lay_dot(laid: Changed, rows: &mut RowsMut<'_>, patch: Patch, column: u32, row: u32) -> Changed
    requires { SomeProgress patch column row laid (held_mut rows.old) × DotAt patch column row }
    ensures same_rows { SameRows rows.old rows.new }
    ensures proceeds { Proceeds patch column row laid (held_mut rows.old) (suc column) row result (held_mut rows.new) }
{
    let state = laid.state;
    let number = laid.number;
    let dot = dot_at(patch, column, row, number);
    match insert_dot(state, rows, dot) {
        Err(_) => laid,
        Ok(inserted) => Changed {
            state: state.followed_by(inserted.state),
            number: number + 1,
        },
    }
}

// Lays the dots of a row, from one to the next. A `while`: `next_dot` says which column is next, since not each has a dot.
fn lay_row(before: Changed, rows: &mut RowsMut<'_>, patch: Patch, row: u32) -> Changed
    requires { SomeProgress patch 0 row before (held_mut rows.old) × (row < 16 * patch.rows) }
    ensures same_rows { SameRows rows.old rows.new }
    ensures proceeds { Proceeds patch 0 row before (held_mut rows.old) 0 (suc row) result (held_mut rows.new) }
{
    let width = 16 * patch.columns;
    let mut laid = before;
    let mut column = next_dot(patch, 0, row);
    while column < width {
        laid = lay_dot(laid, rows, patch, column, row);
        column = next_dot(patch, column + 1, row);
    }
    laid
}

// Lays all dots of a patch, row by row.
pub fn lay_rows(state: State, rows: &mut RowsMut<'_>, patch: Patch) -> Changed
    requires { SomeProgress patch 0 0 (none_laid state) (held_mut rows.old) }
    ensures same_rows { SameRows rows.old rows.new }
    ensures proceeds { Proceeds patch 0 0 (none_laid state) (held_mut rows.old) 0 (16 * patch.rows) result (held_mut rows.new) }
{
    let height = 16 * patch.rows;
    let mut laid = Changed { state, number: 0 };
    for row in 0..height {
        laid = lay_row(laid, rows, patch, row);
    }
    laid
}
