// Bytes put into a row, from a place on; each answers the place after them.
ghost use Rattle.std.specs.Prelude.{◌∷◌, [], map, ◌+◌, ◌*◌, ◌≤◌, ◌<◌, pos, length};
ghost use Rattle.lines.specs.Text.{decimal, fields};
ghost use Rattle.lines.specs.Reading.{Put};

use itoa::Buffer;

pub fn put_byte(out: &mut [u8], at: usize, b: u8) -> usize
    requires { at < length out.old }
    ensures { Put out.old at (b ∷ []) out.new result }
{
    out[at] = b;
    at + 1
}

// Every byte of another row.
pub fn put_bytes(out: &mut [u8], at: usize, bytes: &[u8]) -> usize
    requires { at + length bytes.now ≤ length out.old }
    ensures { Put out.old at bytes.now out.new result }
{
    let end = at + bytes.len();
    out[at..end].copy_from_slice(bytes);
    end
}

// The decimal text of n. Nothing says which bytes std's `write!` leaves in a lent row, so the text is itoa's.
pub fn put_natural(out: &mut [u8], at: usize, n: u32) -> usize
    requires { at + 10 ≤ length out.old }
    ensures { Put out.old at (decimal n) out.new result }
{
    let mut text = Buffer::new();
    put_bytes(out, at, text.format(n).as_bytes())
}

// A comma and a number.
pub fn put_field(out: &mut [u8], at: usize, n: u32) -> usize
    requires { at + 11 ≤ length out.old }
    ensures { Put out.old at (fields (pos n ∷ [])) out.new result }
{
    let from = put_byte(out, at, b',');
    put_natural(out, from, n)
}

// Each number of a row, with its comma.
pub fn put_fields(out: &mut [u8], at: usize, numbers: &[u32]) -> usize
    requires { at + 11 * length numbers.now ≤ length out.old }
    ensures { Put out.old at (fields (map pos numbers.now)) out.new result }
{
    let mut next = at;
    for n in numbers {
        next = put_field(out, next, *n);
    }
    next
}
