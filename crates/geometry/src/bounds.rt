// The rectangles that a path of children 1 to 4 leads to, by four bounds.
ghost use Rattle.std.specs.Prelude.{◌≡◌, cond};
ghost use Rattle.arithmetic.specs.Ints.{max_z, min_z};
ghost use Rattle.geometry.specs.Bounds.{all_bounds, bounds_below, in_bounds};

use crate::aabb::AABB;
use crate::centered_aabb::CenteredAABB;

// Above x_over and at most x_upto; above y_over and at most y_upto.
#[derive(Clone, Copy, Debug, PartialEq, Eq)]
pub struct Bounds {
    pub x_over: i32,
    pub x_upto: i32,
    pub y_over: i32,
    pub y_upto: i32,
}

// The two bounds of an axis for one half of it: the upper half lies above the centre, the lower one at most at it.
#[tactic(auto, using(crate::proofs::Fields::forms))]
fn half_bounds(upper: bool, over: i32, upto: i32, center: i32) -> (i32, i32)
    ensures over { result.0 ≡ cond upper (max_z over center) over }
    ensures upto { result.1 ≡ cond upper upto (min_z upto center) }
{
    if upper {
        (over.max(center), upto)
    } else {
        (over, upto.min(center))
    }
}

impl Bounds {
    // Those of the root: every rectangle in the range of coordinates.
    #[tactic(auto, unfolding(crate::specs::Bounds::all_bounds))]
    pub fn all() -> Bounds
        ensures { result ≡ all_bounds }
    {
        Bounds {
            x_over: -1073741825,
            x_upto: 1073741823,
            y_over: -1073741825,
            y_upto: 1073741823,
        }
    }

    // Those of a child of the cell; child 0 keeps the bounds.
    pub fn below(self, cell: CenteredAABB, child: u32) -> Bounds
        ensures { result ≡ bounds_below self cell child }
    {
        if child == 0 {
            return self;
        }
        let right = (child == 2) | (child == 4);
        let bottom = 3 <= child;
        let (x_over, x_upto) = half_bounds(right, self.x_over, self.x_upto, cell.center_x);
        let (y_over, y_upto) = half_bounds(bottom, self.y_over, self.y_upto, cell.center_y);
        Bounds {
            x_over,
            x_upto,
            y_over,
            y_upto,
        }
    }

    // Whether a rectangle lies within the bounds.
    #[tactic(auto, unfolding(crate::specs::Bounds::in_bounds))]
    pub fn holds(self, rect: AABB) -> bool
        ensures { result ≡ in_bounds self rect }
    {
        let x = (self.x_over < rect.x1) & (rect.x2 <= self.x_upto);
        let y = (self.y_over < rect.y1) & (rect.y2 <= self.y_upto);
        x & y
    }
}
