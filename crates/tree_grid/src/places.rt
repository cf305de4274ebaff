// All places of the lent memory, one after another. A free place holds the zero rectangle, as a dot may: such rectangles are counted, and added at the end
// as often as dots have them.
ghost use Rattle.std.specs.Prelude.{◌*◌, ◌≤◌, length};
ghost use Rattle.grid.specs.Grids.{windows};
ghost use Rattle.tree_grid.specs.Counts.{Room, Empty};
ghost use Rattle.tree_grid.specs.Passes.{Stepped, Passed};

use crate::counts::Counts;
use geometry::aabb::AABB;
use memory::places::rect_at;

// What the places so far add up to: the windows met, and the zero rectangles left out.
#[derive(Clone, Copy, Debug, Default, PartialEq, Eq)]
pub struct Pass {
    pub total: u64,
    pub zeros: u32,
}

impl Counts<'_> {
    // One place more: its rectangle is added, or is a zero one and is left out.
    fn add_place(&mut self, rect: AABB, pass: Pass) -> Pass
        requires room { Room 0 (windows self.old.grid) 1 self.old.row.now }
        requires total_bound { (pass.total ≤ 4294967296) × (pass.zeros ≤ 65536) }
        ensures { Stepped rect self.old self.new pass result }
    {
        if rect.is_zero() {
            return Pass {
                zeros: pass.zeros + 1,
                ..pass
            };
        }
        Pass {
            total: pass.total + self.add_rect(rect, 1),
            ..pass
        }
    }

    // Adds the rectangles of the first places, but the zero ones, to counts that are 0.
    pub fn add_places(&mut self, rects: &[i32], places: usize) -> Pass
        requires empty { Empty (windows self.old.grid) self.old.row.now }
        requires places_bound { (places ≤ 65536) × (4 * places ≤ length rects.now) }
        ensures { Passed rects.now places self.old self.new result }
    {
        let mut pass = Pass::default();
        for place in 0..places {
            pass = self.add_place(rect_at(rects, place), pass);
        }
        pass
    }
}
