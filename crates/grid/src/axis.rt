// One axis of a grid, by arithmetic.
ghost use Rattle.std.specs.Prelude.{◌≡◌, ◌/◌, ◌≤◌, min, pos};
ghost use Rattle.std.specs.Int.Signed.{le_z};
ghost use Rattle.arithmetic.specs.Ints.{natural};
ghost use Rattle.grid.specs.Grids.{edge};
ghost use Rattle.grid.specs.Spans.{first_met, past_met, span_met};

use crate::grid::Span;

// Where the first window begins, the windows' size, and how many there are.
#[derive(Clone, Copy, Debug, PartialEq, Eq)]
pub struct Axis {
    pub first: i32,
    pub size: i32,
    pub number: i32,
}

// How many whole windows there are from 0 to z; none for a negative z.
fn steps(z: i64, size: u32) -> u64
    requires { 1 ≤ size }
    ensures { result ≡ natural z / size }
{
    z.max(0).unsigned_abs() / u64::from(size)
}

// How many windows end before a, or at it where a touch is not enough.
fn first_met(touching: bool, first: i32, size: u32, a: i32) -> u64
    requires { 1 ≤ size }
    ensures { result ≡ first_met touching first size a }
{
    steps(arithmetic::difference(a, first) - i64::from(touching), size)
}

// How many windows begin before b, or at it where a touch is enough: a ceiling, where the one above is a floor.
fn past_met(touching: bool, first: i32, size: u32, b: i32) -> u64
    requires { 1 ≤ size }
    ensures { result ≡ past_met touching first size b }
{
    let past = arithmetic::difference(b, first) + i64::from(touching);
    steps(past + i64::from(size - 1), size)
}

// The smaller of the two.
fn at_most(n: u64, most: u32) -> u32
    ensures { result ≡ min n most }
{
    n.min(u64::from(most)) as u32
}

impl Axis {
    // How many windows.
    pub fn count(self) -> u32
        ensures { result ≡ natural self.number }
    {
        arithmetic::natural(self.number)
    }

    // Whether the last window ends at 1073741823 or before; 64 bits hold where it ends, whatever the numbers.
    pub fn end_fits(self) -> bool
        ensures { result ≡ le_z (edge self.first (natural self.size) (natural self.number)) (pos 1073741823) }
    {
        let along = u64::from(self.count()) * u64::from(arithmetic::natural(self.size));
        i64::from(self.first) + (along as i64) <= 1073741823
    }

    // The windows that the interval from a to b meets.
    pub fn met(self, touching: bool, a: i32, b: i32) -> Span
        requires { 1 ≤ natural self.size }
        ensures { result ≡ span_met touching self.first (natural self.size) (natural self.number) a b }
    {
        let size = arithmetic::natural(self.size);
        let number = self.count();
        let from = at_most(first_met(touching, self.first, size, a), number);
        let to = at_most(past_met(touching, self.first, size, b), number);
        Span { from, to }
    }
}
