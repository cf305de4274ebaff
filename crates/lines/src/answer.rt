// The lines of the answers: a letter, numbers, an LF.
ghost use Rattle.std.specs.Prelude.{◌≡◌, ◌∷◌, [], ◌+◌, ◌*◌, ◌≤◌, length, take};
ghost use Rattle.model.specs.Refusals.{number_of};
ghost use Rattle.lines.specs.Text.{answer};
ghost use Rattle.lines.specs.Reading.{output, Written};

use crate::row::{put_byte, put_field, put_fields};
use model::refusal::Refusal;

// A letter, and each number with its comma.
fn answer_numbers(out: &mut [u8], letter: u8, numbers: &[u32]) -> usize
    requires { 2 + 11 * length numbers.now ≤ length out.old }
    ensures { Written (output out.old out.new result) (answer letter numbers.now) }
{
    let first = put_byte(out, 0, letter);
    let end = put_fields(out, first, numbers);
    put_byte(out, end, b'\n')
}

// A line of one number.
pub fn answer_one(out: &mut [u8], letter: u8, a: u32) -> usize
    requires { 13 ≤ length out.old }
    ensures { Written (output out.old out.new result) (answer letter (a ∷ [])) }
{
    answer_numbers(out, letter, &[a])
}

// The line of a refusal.
pub fn answer_refusal(out: &mut [u8], refusal: Refusal) -> usize
    requires { 13 ≤ length out.old }
    ensures { Written (output out.old out.new result) (answer 69 (number_of refusal ∷ [])) }
{
    answer_one(out, b'E', refusal.number())
}

// A line of two numbers.
pub fn answer_two(out: &mut [u8], letter: u8, a: u32, b: u32) -> usize
    requires { 24 ≤ length out.old }
    ensures { Written (output out.old out.new result) (answer letter (a ∷ b ∷ [])) }
{
    answer_numbers(out, letter, &[a, b])
}

// A query's line: the nodes opened, the hits, and the ids, with which the row begins.
pub fn answer_query(out: &mut [u8], opened: u32, hits: u32, row: &[u32]) -> usize
    requires { 24 + 11 * length row.now ≤ length out.old }
    ensures { Written (output out.old out.new result) (answer 81 (opened ∷ hits ∷ take hits row.now)) }
{
    let listed = (hits as usize).min(row.len());
    let first = put_byte(out, 0, b'Q');
    let second = put_field(out, first, opened);
    let third = put_field(out, second, hits);
    let end = put_fields(out, third, &row[..listed]);
    put_byte(out, end, b'\n')
}
