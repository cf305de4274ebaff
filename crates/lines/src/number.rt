// Decimal numbers. A number is read by its text: the bytes are added up as digits, whatever they are, and count if the sum's text is those bytes.
ghost use Rattle.std.specs.Prelude.{◌≡◌, pos, option_map};
ghost use Rattle.lines.specs.Text.{u32, i32};
ghost use Rattle.lines.specs.Reading.{Part, value_from};

use itoa::Buffer;

// The sum of the bytes as digits, at 32 bits.
fn value_of(part: &[u8]) -> u32
    ensures { result ≡ value_from 0 part.now }
{
    part.iter().fold(0u32, |v, b| {
        v.wrapping_mul(10).wrapping_add(u32::from(*b % 16))
    })
}

// A number, if the bytes are its text: std's `parse` also takes a plus sign and leading zeros.
pub fn natural_of(part: &[u8]) -> Option<u32>
    ensures { Part u32 part.now (option_map pos result) }
{
    let value = value_of(part);
    let mut text = Buffer::new();
    (text.format(value).as_bytes() == part).then_some(value)
}

pub fn integer_of(part: &[u8]) -> Option<i32>
    ensures { Part i32 part.now result }
{
    match part {
        [b'-', digits @ ..] => {
            let n = natural_of(digits)?;
            if n > 0 {
                0i32.checked_sub_unsigned(n)
            } else {
                None
            }
        }
        _ => i32::try_from(natural_of(part)?).ok(),
    }
}
