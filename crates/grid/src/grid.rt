// The grid of a report: where its first window begins, the windows' size, and how many there are in a row and in a column.
ghost use Rattle.std.specs.Prelude.{◌≡◌, true};
ghost use Rattle.grid.specs.Grids.{columns_of, rows_of, windows, sizes_fit, corner_fits};
ghost use Rattle.grid.specs.Spans.{columns_met, rows_met, span_length, across_axis, down_axis};

use crate::axis::Axis;
use geometry::aabb::AABB;

// Of any numbers: §19.3 says which are in range.
#[derive(Clone, Copy, Debug, PartialEq, Eq)]
pub struct Grid {
    pub x: i32,
    pub y: i32,
    pub width: i32,
    pub height: i32,
    pub columns: i32,
    pub rows: i32,
}

// The windows on one axis from a number on and before another: none, if `to` is no larger.
#[derive(Clone, Copy, Debug, PartialEq, Eq)]
pub struct Span {
    pub from: u32,
    pub to: u32,
}

impl Span {
    // How many windows.
    pub fn length(self) -> u32
        ensures { result ≡ span_length self }
    {
        self.to.saturating_sub(self.from)
    }
}

impl Grid {
    // The axis of the columns.
    fn across(self) -> Axis
        ensures { result ≡ across_axis self }
    {
        Axis {
            first: self.x,
            size: self.width,
            number: self.columns,
        }
    }

    // The axis of the rows.
    fn down(self) -> Axis
        ensures { result ≡ down_axis self }
    {
        Axis {
            first: self.y,
            size: self.height,
            number: self.rows,
        }
    }

    // Whether the windows' size and number are in range (§19.3, refusal 11).
    pub fn sizes_fit(self) -> bool
        ensures { result ≡ sizes_fit self }
    {
        let size = (1 <= self.width) & (1 <= self.height);
        size & ((1..=64).contains(&self.columns) & (1..=64).contains(&self.rows))
    }

    // Whether the far corner is in range (§19.3, refusal 12).
    #[tactic(auto, unfolding(crate::specs::Grids::corner_fits))]
    pub fn corner_fits(self) -> bool
        ensures { result ≡ corner_fits self }
    {
        self.across().end_fits() & self.down().end_fits()
    }

    // How many columns.
    pub fn column_count(self) -> u32
        ensures { result ≡ columns_of self }
    {
        self.across().count()
    }

    // How many rows.
    pub fn row_count(self) -> u32
        ensures { result ≡ rows_of self }
    {
        self.down().count()
    }

    // How many windows.
    pub fn windows(self) -> u32
        requires { sizes_fit self ≡ true }
        ensures { result ≡ windows self }
    {
        self.column_count() * self.row_count()
    }

    // The columns that a rectangle meets (§19.2): a touch is enough where it is flat.
    pub fn columns_met(self, rect: AABB) -> Span
        requires { sizes_fit self ≡ true }
        ensures { result ≡ columns_met self rect }
    {
        self.across().met(rect.is_degenerate(), rect.x1, rect.x2)
    }

    // The rows that a rectangle meets (§19.2).
    pub fn rows_met(self, rect: AABB) -> Span
        requires { sizes_fit self ≡ true }
        ensures { result ≡ rows_met self rect }
    {
        self.down().met(rect.is_degenerate(), rect.y1, rect.y2)
    }
}
