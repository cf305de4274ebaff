// Fields: a comma, then a number up to the next comma or the line's end.
ghost use Rattle.std.specs.Prelude.{◌≡◌, ◌==◌, ◌∷◌, [], pos, length, option_map};
ghost use Rattle.lines.specs.Text.{u32, i32};
ghost use Rattle.lines.specs.Reading.{FieldOf, Reads};
ghost use Rattle.lines.specs.Lines.{corners, four};

use crate::number::{integer_of, natural_of};
use geometry::aabb::AABB;

// What is left of a line after the fields that were read. After a `None` it says nothing.
#[derive(Drop)]
pub struct Fields<'a> {
    pub rest: &'a [u8],
}

impl<'a> Fields<'a> {
    // The bytes of a field.
    fn part(&mut self) -> Option<&'a [u8]>
        ensures { FieldOf self.old.rest.now (option_map (λ part. part.now) result) self.new.rest.now }
    {
        let [b',', after @ ..] = self.rest else {
            return None;
        };
        let end = after.iter().position(|b| *b == b',').unwrap_or(after.len());
        let (part, rest) = after.split_at(end);
        self.rest = rest;
        Some(part)
    }

    pub fn natural(&mut self) -> Option<u32>
        ensures { Reads (u32 ∷ []) self.old.rest.now (option_map (λ n. pos n ∷ []) result) self.new.rest.now }
    {
        natural_of(self.part()?)
    }

    pub fn integer(&mut self) -> Option<i32>
        ensures { Reads (i32 ∷ []) self.old.rest.now (option_map (λ z. z ∷ []) result) self.new.rest.now }
    {
        integer_of(self.part()?)
    }

    // Four integers: a rectangle, or the root's left, top, width and height.
    pub fn rect(&mut self) -> Option<AABB>
        ensures { Reads four self.old.rest.now (option_map corners result) self.new.rest.now }
    {
        let x1 = self.integer()?;
        let y1 = self.integer()?;
        let x2 = self.integer()?;
        let y2 = self.integer()?;
        Some(AABB { x1, y1, x2, y2 })
    }

    pub fn is_empty(&self) -> bool
        ensures { result ≡ (length self.now.rest.now == 0) }
    {
        self.rest.is_empty()
    }
}
